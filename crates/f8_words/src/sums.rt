// Sums of bytes, binary and decimal.
ghost use Rattle.std.specs.Prelude.{◌≡◌, ◌<◌, false};
ghost use Rattle.f8_spec.specs.Words.{decimal_digit, decimal_value};
ghost use Rattle.f8_words.specs.Sums.{sum_of};

/// A sum of two bytes and a carry, as the processor's adder gives it (Fairchild F8 User's Guide, status register).
#[derive(Clone, Copy, Debug, PartialEq, Eq)]
pub struct Sum {
    /// The sum modulo 256.
    pub value: u8,
    /// The carry out of bit 7.
    pub carry: bool,
    /// The carry out of bit 6 and the carry out of bit 7 differ.
    pub overflow: bool,
}

/// The sum `a + b`, and 1 more where `cin` is set.
pub fn add9(a: u8, b: u8, cin: bool) -> Sum
    ensures { result ≡ sum_of a b cin }
{
    let whole = u16::from(a) + u16::from(b) + u16::from(cin);
    let carry = whole > 0xFF;
    let into_sign = a % 128 + b % 128 + u8::from(cin) > 0x7F;
    Sum {
        value: (whole % 256) as u8,
        carry,
        overflow: into_sign != carry,
    }
}

/// The decimal sum of two bytes, with the binary sum by which it goes and which sets the flags.
///
/// Each digit of the binary sum gains 10, modulo 16, where nothing was carried out of it, and no carry passes between the
/// digits. So two decimal digits add as such where 66 was added to one of the bytes beforehand. The rule is this project's own,
/// after the Fairchild F8 User's Guide (`ASD`, `AMD`).
pub fn bcd(a: u8, b: u8) -> (u8, Sum)
    ensures decimal { result.0 ≡ decimal_value a b }
    ensures binary { result.1 ≡ sum_of a b false }
{
    let binary = add9(a, b, false);
    let high = decimal_digit(binary.value / 16, binary.carry);
    let low = decimal_digit(binary.value % 16, a % 16 + b % 16 > 0xF);
    (high * 16 + low, binary)
}

fn decimal_digit(digit: u8, carried: bool) -> u8
    requires { digit < 16 }
    ensures { result ≡ decimal_digit digit carried }
{
    if carried { digit } else { (digit + 10) % 16 }
}
