// The sets of an entry: of bytes, of words, and of the numbers of registers.
ghost use Rattle.std.specs.Prelude.{◌≡◌, ◌<◌, ◌&&◌, nat_le, IfOk, IfSome, length, option_map};
ghost use Rattle.std.specs.List.{All, range_with_len};
ghost use Rattle.value_sets.specs.SetViews.{byte_values, word_values};
ghost use Rattle.case_text.specs.EntryWords.{is_ascending, byte_set_of as spelled_byte_set};
ghost use Rattle.case_text.specs.EntryWords.{word_set_of as spelled_word_set};
ghost use Rattle.case_text.specs.EntryWords.{numbers_of as spelled_numbers};

use super::numbers::{bytes_of, octals_of, words_of};
use arrayvec::ArrayVec;
use case_step::IsarSet;
use line_words::is_word;
use std::alloc::{AllocError, Global};
use value_sets::{ByteSet, MOST_BYTES, MOST_WORDS, WordSet};

/// The most bytes of a list of words.
const MOST_WORD_BYTES: usize = 2 * MOST_WORDS;

/// Bytes are listed: at least one, in ascending order.
fn are_listed(bytes: &[u8]) -> bool
    ensures { result ≡ (nat_le 1 (length bytes.now) && is_ascending bytes.now) }
{
    !bytes.is_empty() && bytes.is_sorted_by(|first, second| first < second)
}

/// Words are listed: at least one, in ascending order.
fn are_words_listed(words: &[u16]) -> bool
    ensures { result ≡ (nat_le 1 (length words.now) && is_ascending words.now) }
{
    !words.is_empty() && words.is_sorted_by(|first, second| first < second)
}

/// The set of bytes of a word.
pub fn byte_set_of(word: &[u8]) -> Option<ByteSet>
    ensures { option_map byte_values result ≡ spelled_byte_set word.now }
{
    if is_word(word, b"--") {
        return Some(ByteSet::Any);
    }
    let bytes: ArrayVec<u8, MOST_BYTES> = bytes_of(word)?;
    if !are_listed(&bytes) {
        return None;
    }
    Some(ByteSet::Among(bytes))
}

/// The set of words of a word. Memory is taken for a list alone.
pub fn word_set_of(alloc: Global, word: &[u8]) -> Result<Option<WordSet>, AllocError>
    ensures { IfOk result (λ set. option_map word_values set ≡ spelled_word_set word.now) }
{
    if is_word(word, b"----") {
        return Ok(Some(WordSet::Any));
    }
    let Some(bytes) = bytes_of::<MOST_WORD_BYTES>(word) else {
        return Ok(None);
    };
    let Some(words) = words_of(alloc, &bytes)? else {
        return Ok(None);
    };
    if !are_words_listed(&words) {
        return Ok(None);
    }
    Ok(Some(WordSet::Among(words)))
}

/// All numbers of registers.
fn all_numbers() -> IsarSet
    ensures { result.items ≡ range_with_len 0 64 }
{
    let mut numbers = ArrayVec::new();
    for number in 0..64 {
        numbers.push(number);
    }
    numbers
}

/// The numbers that ISAR may have by a word.
pub fn numbers_of(word: &[u8]) -> Option<IsarSet>
    ensures value { option_map (λ numbers. numbers.items) result ≡ spelled_numbers word.now }
    ensures small { IfSome result (λ numbers. All (λ number. number < 64) numbers.items) }
{
    if is_word(word, b"--") {
        return Some(all_numbers());
    }
    let numbers = octals_of(word)?;
    if !are_listed(&numbers) {
        return None;
    }
    Some(numbers)
}
