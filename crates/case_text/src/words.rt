// The words of a line, taken one by one as the parts of an entry.
ghost use Rattle.std.specs.Prelude.{◌≡◌, ◌∷◌, [], ◌<◌, IfOk, IfSome, MatchOption, map, option_map};
ghost use Rattle.std.specs.List.{All};
ghost use Rattle.std.specs.Option.{ForSome};
ghost use Rattle.line_words.specs.Words.{words};
ghost use Rattle.line_words.specs.Numbers.{address_of as spelled_address};
ghost use Rattle.abs_domain.specs.StateView.{status_of as status_view};
ghost use Rattle.value_sets.specs.SetViews.{byte_values, word_values};
ghost use Rattle.case_text.specs.EntryWords.{part, byte_set_of as spelled_byte_set, facts_of as spelled_facts};
ghost use Rattle.case_text.specs.EntryWords.{numbers_of as spelled_numbers};
ghost use Rattle.case_text.specs.EntryWords.{registers_of as spelled_registers, return_of as spelled_return};
ghost use Rattle.case_text.specs.EntryWords.{same_of as spelled_same};
ghost use Rattle.case_text.specs.EntryWords.{status_of as spelled_status, word_set_of as spelled_word_set};

use super::parts::{Facts, facts_of, return_of, same_of, status_of};
use super::sets::{byte_set_of, numbers_of, word_set_of};
use abs_domain::{Bit, SCRATCHPAD_SIZE};
use case_step::IsarSet;
use line_words::{address_of, first_word};
use std::alloc::{AllocError, Global};
use std::array;
use std::marker::Model;
use value_sets::{ByteSet, WordSet};

/// The words of a line that are left. A part of an entry is the next word, and none where it is out of form or no word is left.
#[derive(Drop)]
pub struct LineWords<'a> {
    rest: Option<&'a [u8]>,
}

impl<'a> Model for LineWords<'a> {
    ghost use Rattle.std.specs.Prelude.{ℕ, List, [], option_map, unwrap_or};
    ghost use Rattle.line_words.specs.Words.{words};

    ghost Value = { List (List ℕ) };

    ghost view = { λ left. unwrap_or (option_map (λ rest. words rest.now) left.rest) [] };
}

impl<'a> LineWords<'a> {
    /// All words of a line.
    pub fn of(line: &'a [u8]) -> LineWords<'a>
        ensures { result ≡ words line.now }
    {
        LineWords { rest: Some(line) }
    }

    /// The next word.
    pub fn next(&mut self) -> Option<&'a [u8]>
        ensures { MatchOption result (self.old ≡ []) (λ word. self.old ≡ word.now ∷ self.new) }
    {
        let (word, rest) = first_word(self.rest?);
        self.rest = rest;
        Some(word)
    }

    /// An address.
    pub fn address(&mut self) -> Option<u16>
        ensures { option_map (λ at. (at, self.new)) result ≡ part spelled_address self.old }
    {
        address_of(self.next()?)
    }

    /// A return, or any.
    pub fn return_address(&mut self) -> Option<Option<u16>>
        ensures { option_map (λ ret. (ret, self.new)) result ≡ part spelled_return self.old }
    {
        return_of(self.next()?)
    }

    /// A set of bytes.
    pub fn byte_set(&mut self) -> Option<ByteSet>
        ensures { option_map (λ set. (byte_values set, self.new)) result
            ≡ part spelled_byte_set self.old }
    {
        byte_set_of(self.next()?)
    }

    /// The numbers that ISAR may have.
    pub fn numbers(&mut self) -> Option<IsarSet>
        ensures value { option_map (λ numbers. (numbers.items, self.new)) result
            ≡ part spelled_numbers self.old }
        ensures small { IfSome result (λ numbers. All (λ number. number < 64) numbers.items) }
    {
        numbers_of(self.next()?)
    }

    /// The status word, from bit 0 on.
    pub fn status(&mut self) -> Option<[Bit; 5]>
        ensures { option_map (λ bits. (status_view bits, self.new)) result
            ≡ part spelled_status self.old }
    {
        status_of(self.next()?)
    }

    /// A set of words. Memory is taken for a list alone.
    pub fn word_set(&mut self, alloc: Global) -> Result<Option<WordSet>, AllocError>
        ensures { IfOk result (λ set. option_map (λ set. (word_values set, self.new)) set
            ≡ part spelled_word_set self.old) }
    {
        let Some(word) = self.next() else {
            return Ok(None);
        };
        word_set_of(alloc, word)
    }

    /// The four facts.
    pub fn facts(&mut self) -> Option<Facts>
        ensures { option_map (λ facts. (
          record {
            s0 = facts.s0;
            s1 = facts.s1;
            p0 = facts.p0;
            p1 = facts.p1;
          },
          self.new,
        )) result
            ≡ part spelled_facts self.old }
    {
        facts_of(self.next()?)
    }

    /// The register that holds the accumulator's byte, or none.
    pub fn same(&mut self) -> Option<Option<u8>>
        ensures value { option_map (λ number. (number, self.new)) result
            ≡ part spelled_same self.old }
        ensures small { IfSome result (λ number. ForSome number (λ number. number < 64)) }
    {
        same_of(self.next()?)
    }

    /// The scratchpad, a word for each register.
    pub fn scratchpad(&mut self) -> Option<[ByteSet; SCRATCHPAD_SIZE]>
        ensures { option_map (λ registers. (map byte_values registers, self.new)) result
            ≡ spelled_registers 64 self.old }
    {
        let mut registers = array::from_fn(|_| ByteSet::Any);
        for register in registers.iter_mut() {
            *register = self.byte_set()?;
        }
        Some(registers)
    }
}
