// The two bytes of an address.
ghost use Rattle.std.specs.Prelude.{◌≡◌, ◌/◌, ◌%◌};
ghost use Rattle.f8_spec.specs.Words.{with_high as changed_high, with_low as changed_low};

/// The high byte of an address.
#[inline]
pub fn high_byte(at: u16) -> u8
    ensures { result ≡ at / 256 }
{
    (at / 256) as u8
}

/// The low byte of an address.
#[inline]
pub fn low_byte(at: u16) -> u8
    ensures { result ≡ at % 256 }
{
    (at % 256) as u8
}

/// The address with its low byte changed.
#[inline]
pub fn with_low(at: u16, low: u8) -> u16
    ensures { result ≡ changed_low at low }
{
    at / 256 * 256 + u16::from(low)
}

/// The address with its high byte changed.
#[inline]
pub fn with_high(at: u16, high: u8) -> u16
    ensures { result ≡ changed_high at high }
{
    u16::from(high) * 256 + at % 256
}
