// A row of pixels, kept as two bit planes.
ghost use Rattle.std.specs.Prelude.{◌≡◌, ◌≢◌, ℕ, ◌<◌, if◌then◌else◌, replicate, slice_index, slice_set};
ghost use Rattle.std.specs.Int.{bit_at};
ghost use Rattle.video.specs.Planes.{plane_of};
ghost use Rattle.video.specs.ScreenState.{palette_in, digits_in, in_each_row};

use std::marker::Model;

/// A row of 128 pixels of 2 bits. Contracts see the colours, from x 0 on.
#[derive(Clone, Copy)]
pub struct PixelRow {
    /// Bit x is the low bit of the colour at x.
    low: u128,

    /// Bit x is the high bit of the colour at x.
    high: u128,
}

impl Model for PixelRow {
    ghost use Rattle.std.specs.Prelude.{ℕ, ◌^◌, ◌<◌, List, slice_index};
    ghost use Rattle.std.proofs.Common.{ap, ◌∙◌};
    ghost use Rattle.video.specs.Planes.{plane_of, colours_of, low_back, high_back};

    ghost Value = { List ℕ };

    ghost view = { λ r. colours_of r.low r.high };

    ghost invariant = { λ r. (r.low < 2 ^ 128) × (r.high < 2 ^ 128) };

    ghost inverse = { λ colours. record {
      low = plane_of (slice_index colours) 0;
      high = plane_of (slice_index colours) 1;
    } };

    ghost inverse_ok = { λ r fits.
        ap (λ low. record { low = low; high = plane_of (slice_index (colours_of r.low r.high)) 1 })
        (low_back r.low r.high fits.0)
        ∙ ap (λ high. record { low = r.low; high = high }) (high_back r.low r.high fits.1) };
}

impl PixelRow {
    /// A row of pixels of colour 0.
    pub fn blank() -> PixelRow
        ensures { result ≡ replicate 128 0 }
    {
        PixelRow { low: 0, high: 0 }
    }

    /// Gives the pixel at `x` a colour. `x` is below 128, and the colour below 4.
    pub fn set_pixel(&mut self, x: u8, colour: u8)
        requires column { x < 128 }
        requires colour { colour < 4 }
        ensures { self.new ≡ slice_set self.old x colour }
    {
        self.low = with_bit(self.low, x, colour % 2 == 1);
        self.high = with_bit(self.high, x, colour / 2 == 1);
    }

    /// The colour of the pixel at `x`, from 0 to 3. `x` is below 128.
    pub fn pixel(&self, x: u8) -> u8
        requires { x < 128 }
        ensures value { result ≡ slice_index self.now x }
        ensures number { result < 4 }
    {
        bit_of(self.low, x) + 2 * bit_of(self.high, x)
    }

    /// The palette of the row, from 0 to 3: the high bits of its pixels 125 and 126.
    pub fn palette(&self) -> u8
        ensures value { result ≡ palette_in (in_each_row self.now) 0 }
        ensures number { result < 4 }
    {
        ((self.high >> 125) % 4) as u8
    }

    /// The text of the row: the digit of its palette, a blank, and the digits of its 128 pixels from x 0 on.
    pub fn text(&self) -> [u8; 130]
        ensures { result ≡ digits_in (in_each_row self.now) 0 }
    {
        let mut text = [b' '; 130];
        text[0] = b'0' + self.palette();
        // Bytes of eight pixels, since the bits of a byte are faster to come by than those of a u128.
        let lows = self.low.to_le_bytes();
        let highs = self.high.to_le_bytes();
        for byte in 0..16 {
            let low = lows[byte];
            let high = highs[byte];
            for bit in 0..8 {
                text[8 * byte + bit + 2] = b'0' + (low >> bit) % 2 + 2 * ((high >> bit) % 2);
            }
        }
        text
    }

    /// The plane of a bit of the colours, 0 or 1: bit x is that bit of the colour at x.
    pub fn plane(&self, bit: u8) -> u128
        requires { bit < 2 }
        ensures { result ≡ plane_of (slice_index self.now) bit }
    {
        if bit == 0 { self.low } else { self.high }
    }
}

/// A bit of a plane.
fn bit_of(plane: u128, x: u8) -> u8
    requires { x < 128 }
    ensures { result ≡ bit_at plane x }
{
    ((plane >> x) % 2) as u8
}

/// A plane with one of its bits set or cleared.
fn with_bit(plane: u128, x: u8, is_set: bool) -> u128
    requires { x < 128 }
    ensures here { bit_at result x ≡ (if is_set then 1 else 0) }
    ensures elsewhere { (k : ℕ) → k < 128 → k ≢ x → bit_at result k ≡ bit_at plane k }
{
    let mask = 1 << x;
    if is_set { plane | mask } else { plane & !mask }
}
