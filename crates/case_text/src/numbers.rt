// The numbers of a word: bytes as pairs of hexadecimal digits, words as fours of them, and the numbers of registers as pairs of octal digits.
ghost use Rattle.std.specs.Prelude.{◌≡◌, ◌<◌, ◌≤◌, IfOk, IfSome, MatchOption, length, option_map};
ghost use Rattle.std.specs.List.{All};
ghost use Rattle.case_text.specs.EntryWords.{bytes_of as spelled_bytes, in_pairs, octal_of as spelled_octal};
ghost use Rattle.case_text.specs.EntryWords.{octals_of as spelled_octals};

use arrayvec::ArrayVec;
use case_step::IsarSet;
use std::alloc::{AllocError, Global};

/// The bytes of a word, or none where it is out of form or has more bytes than fit.
pub fn bytes_of<const N: usize>(word: &[u8]) -> Option<ArrayVec<u8, N>>
    ensures { MatchOption result
        (IfSome (spelled_bytes word.now) (λ bytes. N < length bytes))
        (λ bytes. spelled_bytes word.now ≡ Some bytes.items) }
{
    let mut bytes = ArrayVec::from([0; N]);
    bytes.truncate(word.len() / 2);
    hex::decode_to_slice(word, bytes.as_mut_slice()).ok()?;
    Some(bytes)
}

/// Bytes as words, the high byte of each first, or none where there is one byte too many.
pub fn words_of(alloc: Global, bytes: &[u8]) -> Result<Option<Vec<u16>>, AllocError>
    ensures { IfOk result (λ words. option_map (λ words. words.items) words ≡ in_pairs bytes.now) }
{
    let mut words = Vec::with_capacity(alloc, bytes.len() / 2)?;
    let mut rest = bytes;
    while let [high, low, behind @ ..] = rest {
        words.push(u16::from_be_bytes([*high, *low]))?;
        rest = behind;
    }
    Ok(if rest.is_empty() { Some(words) } else { None })
}

/// The value of an octal digit.
fn octal_of(digit: u8) -> Option<u8>
    ensures value { result ≡ spelled_octal digit }
    ensures small { IfSome result (λ value. value < 8) }
{
    match digit {
        b'0'..=b'7' => Some(digit - b'0'),
        _ => None,
    }
}

/// The numbers of registers that a word spells, or none where it is out of form or has more than 64.
pub fn octals_of(word: &[u8]) -> Option<IsarSet>
    ensures value { MatchOption result
        (IfSome (spelled_octals word.now) (λ numbers. 64 < length numbers))
        (λ numbers. spelled_octals word.now ≡ Some numbers.items) }
    ensures small { IfSome result (λ numbers. All (λ number. number < 64) numbers.items) }
{
    let mut numbers = ArrayVec::new();
    let mut rest = word;
    while let [high, low, behind @ ..] = rest {
        numbers
            .try_push(octal_of(*high)? * 8 + octal_of(*low)?)
            .ok()?;
        rest = behind;
    }
    if rest.is_empty() { Some(numbers) } else { None }
}
