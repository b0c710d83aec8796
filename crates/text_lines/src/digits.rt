// Hexadecimal digits.
ghost use Rattle.std.specs.Prelude.{◌≡◌, ◌<◌};
ghost use Rattle.f8_spec.specs.Spelling.{hex_digit, hex2};

/// The character of a digit below 16, a capital from 10 on.
#[inline]
fn hex_digit(digit: u8) -> u8
    requires { digit < 16 }
    ensures { result ≡ hex_digit digit }
{
    if digit < 10 {
        b'0' + digit
    } else {
        b'A' + (digit - 10)
    }
}

/// A byte as two hexadecimal digits, in capitals.
#[inline]
pub fn hex2(byte: u8) -> [u8; 2]
    ensures { result ≡ hex2 byte }
{
    [hex_digit(byte / 16), hex_digit(byte % 16)]
}
