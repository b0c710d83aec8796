// The screen: video memory and the latches of its ports.
use super::pixel_row::PixelRow;
use std::marker::Model;

/// The screen of the console: video memory of 128 by 64 pixels of 2 bits, and the latches of the ports that write it. The rules are this
/// project's own, after the Fairchild Channel F. Contracts see what is `Shown`.
#[derive(Drop)]
pub struct Screen {
    /// The byte last written to port 1, which says a colour.
    colour: u8,

    /// The byte last written to port 4, which says a column.
    column: u8,

    /// The byte last written to port 5, which says a row, and a tone.
    row: u8,

    /// Bit 5 of the byte last written to port 0 is set.
    strobe: bool,

    /// The rows of pixels, from y 0 on.
    rows: [PixelRow; 64],
}

impl Model for Screen {
    ghost use Rattle.video.specs.ScreenState.{Shown};

    ghost Value = { Shown };

    ghost view = { λ s. record {
      latches = record { colour = s.colour; column = s.column; row = s.row };
      strobe = s.strobe;
      rows = s.rows;
    } };
}

impl Screen {
    ghost use Rattle.std.specs.Prelude.{◌≡◌, ℕ, ◌/◌, ◌<◌, List, [], ◌∷◌, ◌++◌, codes};
    ghost use Rattle.console_spec.specs.declared.PortWrite.{PortWrite};
    ghost use Rattle.console_spec.specs.Display.{pixel_of, palette_of, tone_of};
    ghost use Rattle.console_spec.specs.RunText.{picture_row};
    ghost use Rattle.video.specs.Planes.{plane_of};
    ghost use Rattle.video.specs.ScreenState.{row_in, pixel_in, palette_in, digits_in, screen_after, drawn};
    ghost use Rattle.video.specs.ScreenState.{after_write};

    /// A screen at power-on: every pixel and every latch is 0.
    pub fn dark() -> Screen
        ensures { result ≡ screen_after [] }
    {
        Screen {
            colour: 0,
            column: 0,
            row: 0,
            strobe: false,
            rows: [PixelRow::blank(); 64],
        }
    }

    /// Takes a write to a port. Ports 1, 4 and 5 are latched, a rise of bit 5 of port 0 draws a pixel, and other ports change nothing.
    pub fn port(&mut self, port: u8, byte: u8)
        ensures next { self.new ≡ after_write port byte self.old }
        ensures display { (phi : ℕ) (ws : List PortWrite) → self.old ≡ screen_after ws →
            self.new ≡ screen_after (record { phi = phi; port = port; byte = byte } ∷ ws) }
    {
        match port {
            0 => self.take_strobe(byte),
            1 => self.colour = byte,
            4 => self.column = byte,
            5 => self.row = byte,
            _ => {}
        }
    }

    /// Takes a write to port 0.
    #[tactic(auto, unfolding(crate::specs::ScreenState::after_write))]
    fn take_strobe(&mut self, byte: u8)
        ensures { self.new ≡ after_write 0 byte self.old }
    {
        let set = byte / 32 % 2 == 1;
        if set && !self.strobe {
            self.draw();
        }
        self.strobe = set;
    }

    /// Draws the pixel that the latches say. Bytes reach video memory inverted.
    fn draw(&mut self)
        ensures { self.new ≡ record self.old { rows = drawn self.old.latches self.old.rows } }
    {
        let x = (255 - self.column) % 128;
        let y = usize::from((255 - self.row) % 64);
        self.rows[y].set_pixel(x, (255 - self.colour) / 64);
    }

    /// The row of pixels at `y`.
    fn row_at(&self, y: u8) -> &PixelRow
        requires { y < 64 }
        ensures { result.now ≡ row_in self.now.rows y }
    {
        &self.rows[usize::from(y)]
    }

    /// The colour of a pixel, from 0 to 3. `x` is below 128 and `y` below 64.
    pub fn pixel(&self, x: u8, y: u8) -> u8
        requires column { x < 128 }
        requires row { y < 64 }
        ensures value { result ≡ pixel_in self.now.rows x y }
        ensures colour { result < 4 }
        ensures display { (ws : List PortWrite) → self.now ≡ screen_after ws →
            result ≡ pixel_of x y ws }
    {
        self.row_at(y).pixel(x)
    }

    /// The palette of a row, from 0 to 3: the high bit of its pixel 125, and twice that of its pixel 126. Past the last row it is 0, as there
    /// are no pixels.
    pub fn palette(&self, y: u8) -> u8
        ensures value { result ≡ palette_in (pixel_in self.now.rows) y }
        ensures number { result < 4 }
        ensures display { (ws : List PortWrite) → self.now ≡ screen_after ws →
            result ≡ palette_of y ws }
    {
        match self.rows.get(usize::from(y)) {
            Some(row) => row.palette(),
            None => 0,
        }
    }

    /// The text of a row: the digit of its palette, a blank, and the digits of its 128 pixels from x 0 on. `y` is below 64.
    pub fn row_text(&self, y: u8) -> [u8; 130]
        requires { y < 64 }
        ensures value { result ≡ digits_in (pixel_in self.now.rows) y }
        ensures display { (ws : List PortWrite) → self.now ≡ screen_after ws →
            result ++ codes "\n" ≡ picture_row y ws }
    {
        self.row_at(y).text()
    }

    /// A plane of a row: the number of which bit x is bit `bit` of the colour of the pixel at `x` and `y`, for `x` from 0 to 127. `y` is below
    /// 64, and `bit` is 0 or 1.
    pub fn plane(&self, y: u8, bit: u8) -> u128
        requires row { y < 64 }
        requires bit { bit < 2 }
        ensures value { result ≡ plane_of (λ x. pixel_in self.now.rows x y) bit }
        ensures display { (ws : List PortWrite) → self.now ≡ screen_after ws →
            result ≡ plane_of (λ x. pixel_of x y ws) bit }
    {
        self.row_at(y).plane(bit)
    }

    /// The number of the tone, from 0 to 3: the high two bits of the latch of port 5.
    pub fn tone(&self) -> u8
        ensures value { result ≡ self.now.latches.row / 64 }
        ensures number { result < 4 }
        ensures display { (ws : List PortWrite) → self.now ≡ screen_after ws → result ≡ tone_of ws }
    {
        self.row / 64
    }
}
