// Bytes, addresses and numbers that words spell.
ghost use Rattle.std.specs.Prelude.{◌≡◌, ◌≤◌, IfOk, length};
ghost use Rattle.line_words.specs.Numbers.{byte_of as spelled_byte, address_of as spelled_address, decimal_on};
ghost use Rattle.line_words.specs.Numbers.{number_of as spelled_number, within};

use hex::FromHex;
use thiserror::Error;

/// The most digits of a decimal number.
const MOST_DIGITS: usize = 7;

/// Why a word is no number within limits.
#[derive(Clone, Copy, Debug, PartialEq, Eq, Error)]
pub enum NumberFault {
    /// The digits are out of form.
    #[error("not a number")]
    NotNumber,
    /// The number is too small or too large.
    #[error("out of range")]
    OutOfRange,
}

/// The byte of two hexadecimal digits of either case, and `None` where the word isn't two such digits.
pub fn byte_of(word: &[u8]) -> Option<u8>
    ensures { result ≡ spelled_byte word.now }
{
    let bytes = <[u8; 1] as FromHex>::from_hex(word).ok()?;
    Some(bytes[0])
}

/// The address of four hexadecimal digits of either case, and `None` where the word isn't four such digits.
pub fn address_of(word: &[u8]) -> Option<u16>
    ensures { result ≡ spelled_address word.now }
{
    let bytes = <[u8; 2] as FromHex>::from_hex(word).ok()?;
    Some(u16::from(bytes[0]) * 256 + u16::from(bytes[1]))
}

/// The number that at most seven decimal digits make.
#[tactic(auto, unfolding(crate::specs::Numbers::decimal_on))]
fn value_of(digits: &[u8]) -> Option<u32>
    requires { length digits.now ≤ 7 }
    ensures { result ≡ decimal_on 0 digits.now }
{
    let mut value = 0u32;
    for digit in digits {
        if !digit.is_ascii_digit() {
            return None;
        }
        value = 10 * value + u32::from(*digit - b'0');
    }
    Some(value)
}

/// The number of one to seven decimal digits, zeros in front allowed, and `None` where the word isn't such a number.
pub fn number_of(word: &[u8]) -> Option<u32>
    ensures { result ≡ spelled_number word.now }
{
    if word.is_empty() || word.len() > MOST_DIGITS {
        return None;
    }
    value_of(word)
}

/// The number of one to seven decimal digits, which lies between two others, both of them allowed.
pub fn number_within(word: &[u8], first: u32, last: u32) -> Result<u32, NumberFault>
    ensures value { result ≡ within first last (spelled_number word.now) }
    ensures range { IfOk result (λ n. (first ≤ n) × (n ≤ last)) }
{
    let Some(number) = number_of(word) else {
        return Err(NumberFault::NotNumber);
    };
    if number < first || number > last {
        return Err(NumberFault::OutOfRange);
    }
    Ok(number)
}
