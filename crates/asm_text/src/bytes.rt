// The classes of bytes, and numbers by their digits.
ghost use Rattle.std.specs.Prelude.{◌≡◌, ◌≤◌, ◌+◌, ◌*◌, IsTrue};
ghost use Rattle.std.specs.List.{prefix_len, list_all};
ghost use Rattle.std.specs.Char.{is_digit};
ghost use Rattle.asm_text.specs.Bytes.{is_letter, is_name_byte, is_mark, value, narrow};

/// Whether a name may begin with a byte.
pub fn is_letter(byte: u8) -> bool
    ensures { result ≡ is_letter byte }
{
    byte.is_ascii_alphabetic() || byte == b'_'
}

/// Whether a name may go on with a byte.
pub fn is_name_byte(byte: u8) -> bool
    ensures { result ≡ is_name_byte byte }
{
    is_letter(byte) || byte.is_ascii_digit()
}

/// Whether a byte is a token of its own.
pub fn is_mark(byte: u8) -> bool
    ensures { result ≡ is_mark byte }
{
    b"+-*/&|()<>,.:".contains(&byte)
}

/// How many bytes at the front can stand in a name.
pub fn name_length(bytes: &[u8]) -> usize
    ensures { result ≡ prefix_len is_name_byte bytes.now }
{
    bytes.iter().take_while(|byte| is_name_byte(**byte)).count()
}

/// How many bytes at the front are digits of a base.
pub fn digits_length(bytes: &[u8], base: u32) -> usize
    requires base_low { 2 ≤ base }
    requires base_high { base ≤ 16 }
    ensures { result ≡ prefix_len (λ b. is_digit b base) bytes.now }
{
    bytes
        .iter()
        .take_while(|byte| char::from(**byte).is_digit(base))
        .count()
}

/// A number with one digit more, or `None` where it is above 4,294,967,295.
#[tactic(auto, unfolding(crate::specs::Bytes::narrow))]
fn with_digit(number: u32, base: u32, digit: u32) -> Option<u32>
    ensures { result ≡ narrow (number * base + digit) }
{
    number.checked_mul(base)?.checked_add(digit)
}

/// The number that digits spell in a base, or `None` where it is above 4,294,967,295.
#[tactic(auto, using(crate::proofs::Runs::value_none))]
pub fn number(digits: &[u8], base: u32) -> Option<u32>
    requires base_low { 2 ≤ base }
    requires base_high { base ≤ 16 }
    requires digits { IsTrue (list_all (λ b. is_digit b base) digits.now) }
    ensures { result ≡ narrow (value base digits.now) }
{
    let mut sum = 0u32;
    for byte in digits {
        let digit = char::from(*byte).to_digit(base).unwrap();
        sum = with_digit(sum, base, digit)?;
    }
    Some(sum)
}
