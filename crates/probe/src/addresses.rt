// Sums and halves of addresses, apart from those of the chips.
ghost use Rattle.std.specs.Prelude.{◌≡◌};
ghost use Rattle.f8_spec.specs.Words.{displaced, with_high, with_low};

/// The address that a signed byte leads to, modulo 65,536.
pub(crate) fn displaced_by(at: u16, byte: u8) -> u16
    ensures { result ≡ displaced at byte }
{
    at.wrapping_add_signed(i16::from(byte.cast_signed()))
}

/// The address with another high byte.
pub(crate) fn with_high_byte(at: u16, high: u8) -> u16
    ensures { result ≡ with_high at high }
{
    u16::from(high) * 256 + at % 256
}

/// The address with another low byte.
pub(crate) fn with_low_byte(at: u16, low: u8) -> u16
    ensures { result ≡ with_low at low }
{
    at / 256 * 256 + u16::from(low)
}
