// What a case leads to, as it is compared with entries.
ghost use Rattle.std.specs.Prelude.{◌≡◌, ◌<◌, ◌&&◌, ◌||◌, map};
ghost use Rattle.std.specs.List.{list_any, range_with_len};
ghost use Rattle.abs_domain.specs.Joins.{is_status_below};
ghost use Rattle.abs_domain.specs.KnownParts.{known_byte, known_word};
ghost use Rattle.abs_domain.specs.Lattice.{is_below, is_fact_below, same_bool};
ghost use Rattle.abs_domain.specs.StateView.{state_of, status_of};
ghost use Rattle.abs_step.specs.Known.{agree};
ghost use Rattle.abs_step.specs.StepView.{invariant_at};
ghost use Rattle.f8_spec.specs.Instructions.{row_of as spelled_row};
ghost use Rattle.value_sets.specs.SetViews.{byte_values, word_values};
ghost use Rattle.value_sets.specs.ValueSets.{are_among as spelled_among, is_each_within, is_within, single};
ghost use Rattle.case_step.specs.Cases.{pointed_register as spelled_pointed, register_in as spelled_register};
ghost use Rattle.case_step.specs.Effects.{writes_accumulator as spelled_accumulator, writes_flags as spelled_flags};
ghost use Rattle.case_step.specs.Effects.{writes_isar as spelled_isar, writes_data as spelled_data};
ghost use Rattle.case_step.specs.Effects.{copied as spelled_copied, registers_written as spelled_registers};
ghost use Rattle.case_step.specs.Entries.{register_values};
ghost use Rattle.case_step.specs.EntryViews.{entry_view};
ghost use Rattle.case_step.specs.Results.{result as spelled_result, is_covered_by as spelled_cover, values_after, kept};
ghost use Rattle.case_step.specs.Results.{d0_after, d1_after, isar_after, register_after, status_after};
ghost use Rattle.case_step.specs.Results.{is_register, is_register_written, is_same_below};
ghost use Rattle.case_step.specs.Results.{copied_register as spelled_copy, same_after as spelled_same};
ghost use Rattle.case_step.specs.Results.{same_kept as spelled_kept};

use super::entry::Entry;
use super::pointed::{pointed_register, register_in};
use super::writes::{
    Written, copied, registers_written, writes_accumulator, writes_data, writes_flags, writes_isar,
};
use abs_domain::{Abs, Bit, Point, Val, Word};
use f8_ops::{Op, Row, row_of};
use value_sets::{ByteSet, WordSet, are_among, is_among};

/// A case of an entry under an instruction, and what holds next at one point behind it: its result, of which no set is made.
#[derive(Clone, Copy)]
pub struct Outcome<'a> {
    pub op: Op,
    pub entry: &'a Entry,
    pub before: &'a Abs,
    pub point: Point,
    pub after: &'a Abs,
}

/// A byte after an instruction lies within a set.
fn is_byte_within(written: bool, after: Val, before: Val, values: &ByteSet, upper: &ByteSet) -> bool
    ensures { result ≡ is_within
        (values_after written (known_byte after) (known_byte before) (byte_values values.now))
        (byte_values upper.now) }
{
    match if written { after } else { before } {
        Val::Known(byte) => upper.has(byte),
        Val::Any if written => ByteSet::Any.is_within(upper),
        Val::Any => values.is_within(upper),
    }
}

/// A data counter that isn't written, or goes into the other one, lies within a set.
fn is_word_kept_within(before: Word, values: &WordSet, upper: &WordSet) -> bool
    ensures { result ≡ is_within (kept (known_word before) (word_values values.now))
        (word_values upper.now) }
{
    match before {
        Word::Known(at) => upper.has(at),
        Word::Any => values.is_within(upper),
    }
}

/// A data counter after an instruction lies within a set.
fn is_word_within(
    written: bool,
    after: Word,
    before: Word,
    values: &WordSet,
    upper: &WordSet,
) -> bool
    ensures { result ≡ is_within
        (values_after written (known_word after) (known_word before) (word_values values.now))
        (word_values upper.now) }
{
    match after {
        Word::Known(at) if written => upper.has(at),
        Word::Any if written => WordSet::Any.is_within(upper),
        _ => is_word_kept_within(before, values, upper),
    }
}

/// The one value of a byte after an instruction.
fn single_after(written: bool, after: Val, before: Val, values: &ByteSet) -> Option<u8>
    ensures { result ≡ single
        (values_after written (known_byte after) (known_byte before) (byte_values values.now)) }
{
    match if written { after } else { before } {
        Val::Known(byte) => Some(byte),
        Val::Any if written => None,
        Val::Any => values.single(),
    }
}

/// The flags of a status word say no less than those of the upper one.
fn are_flags_below(lower: &[Bit; 5], upper: &[Bit; 5]) -> bool
    ensures { result ≡ (is_below same_bool (status_of lower.now).sign (status_of upper.now).sign
        && is_below same_bool (status_of lower.now).carry (status_of upper.now).carry
        && is_below same_bool (status_of lower.now).zero (status_of upper.now).zero
        && is_below same_bool (status_of lower.now).overflow (status_of upper.now).overflow) }
{
    lower[0].below(upper[0])
        && lower[1].below(upper[1])
        && lower[2].below(upper[2])
        && lower[3].below(upper[3])
}

/// The status word after an instruction says no less than the upper one.
fn is_status_within(written: bool, after: &[Bit; 5], before: &[Bit; 5], upper: &[Bit; 5]) -> bool
    ensures { result ≡ is_status_below
        (status_after written (status_of after.now) (status_of before.now))
        (status_of upper.now) }
{
    are_flags_below(if written { after } else { before }, upper) && after[4].below(upper[4])
}

/// Each number below 64 is in a list.
pub fn are_all_among(numbers: &[u8]) -> bool
    ensures { result ≡ spelled_among numbers.now (range_with_len 0 64) }
{
    (0..64).all(|number| is_among(numbers, number))
}

/// Each number of the lower list is in the upper one. Mostly they are the same list, often of all 64.
fn are_numbers_among(upper: &[u8], lower: &[u8]) -> bool
    ensures { result ≡ spelled_among upper.now lower.now }
{
    if upper == lower {
        return true;
    }
    are_among(upper, lower)
}

/// A register is one of those written, or may be.
fn is_among_written(written: &Written, case: &Abs, number: u8) -> bool
    ensures { result
        ≡ list_any
        (λ part. is_register (spelled_register part (state_of case.now)) number) written.now.items }
{
    written.iter().any(|part| register_in(*part, case).is_none_or(|register| register == number))
}

impl<'a> Outcome<'a> {
    /// The entry covers the result: it is at the same address and return, and allows all that the result does.
    #[tactic(auto, unfolding(crate::specs::Results::result, crate::specs::Results::is_covered_by))]
    pub fn is_covered_by(&self, upper: &Entry) -> bool
        ensures { result ≡ spelled_cover (spelled_result self.now.op (entry_view self.now.entry.now)
            (state_of self.now.before.now) (invariant_at self.now.point self.now.after.now))
            (entry_view upper.now) }
    {
        self.point.at == upper.at
            && self.point.ret == upper.ret
            && self.is_accumulator_covered(upper)
            && self.is_isar_covered(upper)
            && self.is_status_covered(upper)
            && self.are_counters_covered(upper)
            && self.is_same_covered(upper)
            && self.is_scratchpad_covered(upper)
    }

    /// The accumulator's values are.
    fn is_accumulator_covered(&self, upper: &Entry) -> bool
        ensures { result ≡ is_within
            (values_after (spelled_accumulator self.now.op) (known_byte self.now.after.now.a)
            (known_byte self.now.before.now.a) (byte_values self.now.entry.now.a))
            (byte_values upper.now.a) }
    {
        let written = writes_accumulator(self.op);
        is_byte_within(
            written,
            self.after.a,
            self.before.a,
            &self.entry.a,
            &upper.a,
        )
    }

    /// The numbers that ISAR may have are.
    fn is_isar_covered(&self, upper: &Entry) -> bool
        ensures { result ≡ spelled_among upper.now.isar.items (isar_after (spelled_isar self.now.op)
            (spelled_pointed (state_of self.now.after.now))
            (spelled_pointed (state_of self.now.before.now))
            self.now.entry.now.isar.items) }
    {
        let written = writes_isar(self.op);
        let numbers = upper.isar.as_slice();
        match pointed_register(if written { self.after } else { self.before }) {
            Some(number) => is_among(numbers, number),
            None if written => are_all_among(numbers),
            None => are_numbers_among(numbers, self.entry.isar.as_slice()),
        }
    }

    /// The flags are, and the interrupt control bit.
    fn is_status_covered(&self, upper: &Entry) -> bool
        ensures { result ≡ is_status_below
            (status_after (spelled_flags self.now.op) (status_of self.now.after.now.w)
            (status_of self.now.before.now.w)) (status_of upper.now.w) }
    {
        let written = writes_flags(self.op);
        is_status_within(written, &self.after.w, &self.before.w, &upper.w)
    }

    /// The data counters are, and the facts about them.
    fn are_counters_covered(&self, upper: &Entry) -> bool
        ensures { result ≡ (is_within
            (d0_after (spelled_row self.now.op) (entry_view self.now.entry.now)
            (state_of self.now.before.now) (state_of self.now.after.now)) (word_values upper.now.d0)
            && is_within (d1_after (spelled_row self.now.op) (entry_view self.now.entry.now)
            (state_of self.now.before.now)) (word_values upper.now.d1)
            && is_within (values_after (spelled_data (spelled_row self.now.op))
            (known_word self.now.after.now.c)
            (known_word self.now.before.now.c) (word_values self.now.entry.now.c))
            (word_values upper.now.c)
            && is_fact_below self.now.after.now.s0 upper.now.s0
            && is_fact_below self.now.after.now.s1 upper.now.s1
            && is_fact_below self.now.after.now.p0 upper.now.p0
            && is_fact_below self.now.after.now.p1 upper.now.p1) }
    {
        self.is_d0_covered(upper)
            && self.is_d1_covered(upper)
            && self.is_c_covered(upper)
            && (self.after.s0 || !upper.s0)
            && (self.after.s1 || !upper.s1)
            && (self.after.p0 || !upper.p0)
            && (self.after.p1 || !upper.p1)
    }

    /// D0 is, which an exchange has from D1.
    fn is_d0_covered(&self, upper: &Entry) -> bool
        ensures { result ≡ is_within
            (d0_after (spelled_row self.now.op) (entry_view self.now.entry.now)
            (state_of self.now.before.now) (state_of self.now.after.now))
            (word_values upper.now.d0) }
    {
        let (before, entry) = (self.before, self.entry);
        match row_of(self.op) {
            Row::Exchange => is_word_kept_within(before.d1, &entry.d1, &upper.d0),
            row => is_word_within(
                writes_data(row),
                self.after.d0,
                before.d0,
                &entry.d0,
                &upper.d0,
            ),
        }
    }

    /// D1 is, which an exchange has from D0.
    fn is_d1_covered(&self, upper: &Entry) -> bool
        ensures { result ≡ is_within
            (d1_after (spelled_row self.now.op) (entry_view self.now.entry.now)
            (state_of self.now.before.now)) (word_values upper.now.d1) }
    {
        let (before, entry) = (self.before, self.entry);
        match row_of(self.op) {
            Row::Exchange => is_word_kept_within(before.d0, &entry.d0, &upper.d1),
            _ => is_word_kept_within(before.d1, &entry.d1, &upper.d1),
        }
    }

    /// The DC0 of every 3851 is.
    fn is_c_covered(&self, upper: &Entry) -> bool
        ensures { result ≡ is_within (values_after (spelled_data (spelled_row self.now.op))
            (known_word self.now.after.now.c) (known_word self.now.before.now.c)
            (word_values self.now.entry.now.c))
            (word_values upper.now.c) }
    {
        let written = writes_data(row_of(self.op));
        is_word_within(
            written,
            self.after.c,
            self.before.c,
            &self.entry.c,
            &upper.c,
        )
    }

    /// A register that held the accumulator's byte need no longer: one of the two is written, or may be.
    fn is_lost(&self, number: u8) -> bool
        ensures { result ≡ (spelled_accumulator self.now.op
            || is_register_written self.now.op (state_of self.now.before.now) number) }
    {
        writes_accumulator(self.op)
            || is_among_written(&registers_written(self.op), self.before, number)
    }

    /// The register that held the accumulator's byte, where neither is written.
    fn same_kept(&self) -> Option<u8>
        ensures { result ≡ spelled_kept self.now.op
            (state_of self.now.before.now) self.now.entry.now.same }
    {
        let number = self.entry.same?;
        if self.is_lost(number) {
            None
        } else {
            Some(number)
        }
    }

    /// The register that a copy makes hold the accumulator's byte.
    fn copied_register(&self) -> Option<u8>
        ensures { result ≡ spelled_copy (spelled_copied self.now.op)
            (state_of self.now.before.now) }
    {
        register_in(copied(self.op)?, self.before)
    }

    /// The register that holds the accumulator's byte after the instruction.
    pub fn same_after(&self) -> Option<u8>
        ensures { result ≡ spelled_same self.now.op (entry_view self.now.entry.now)
            (state_of self.now.before.now) }
    {
        match self.copied_register() {
            Some(number) => Some(number),
            None => self.same_kept(),
        }
    }

    /// The register that the upper entry names holds the accumulator's byte.
    fn is_same_covered(&self, upper: &Entry) -> bool
        ensures { result ≡ is_same_below (spelled_result self.now.op (entry_view self.now.entry.now)
            (state_of self.now.before.now)
            (invariant_at self.now.point self.now.after.now)) upper.now.same }
    {
        match upper.same {
            None => true,
            Some(number) => self.same_after() == Some(number) || self.holds_accumulator(number),
        }
    }

    /// The accumulator and a register have one value each, and it is the same.
    fn holds_accumulator(&self, number: u8) -> bool
        requires { number < 64 }
        ensures { result ≡ agree (single (values_after (spelled_accumulator self.now.op)
            (known_byte self.now.after.now.a) (known_byte self.now.before.now.a)
            (byte_values self.now.entry.now.a)))
            (single (register_after self.now.op (entry_view self.now.entry.now)
            (state_of self.now.before.now)
            (state_of self.now.after.now) number)) }
    {
        let written = writes_accumulator(self.op);
        match single_after(written, self.after.a, self.before.a, &self.entry.a) {
            Some(byte) => self.single_in(number) == Some(byte),
            None => false,
        }
    }

    /// The one value of a register after the instruction.
    fn single_in(&self, number: u8) -> Option<u8>
        requires { number < 64 }
        ensures { result ≡ single (register_after self.now.op (entry_view self.now.entry.now)
            (state_of self.now.before.now) (state_of self.now.after.now) number) }
    {
        let place = usize::from(number);
        let values = &self.entry.regs[..];
        let is_written = is_among_written(&registers_written(self.op), self.before, number);
        single_after(
            is_written,
            self.after.regs[place],
            self.before.regs[place],
            &values[place],
        )
    }

    /// The values of each register are.
    fn is_scratchpad_covered(&self, upper: &Entry) -> bool
        ensures { result ≡ is_each_within
            (map (register_after self.now.op (entry_view self.now.entry.now)
            (state_of self.now.before.now) (state_of self.now.after.now))
            (range_with_len 0 64)) (map byte_values upper.now.regs) }
    {
        let written = registers_written(self.op);
        for number in 0..64 {
            if !self.is_register_covered(&written, upper, number) {
                return false;
            }
        }
        true
    }

    /// The values of a register are, given the registers that the instruction writes.
    fn is_register_covered(&self, written: &Written, upper: &Entry, number: u8) -> bool
        requires within { number < 64 }
        requires all { written.now.items ≡ spelled_registers self.now.op }
        ensures { result ≡ is_within (register_after self.now.op (entry_view self.now.entry.now)
            (state_of self.now.before.now) (state_of self.now.after.now) number)
            (register_values number (entry_view upper.now)) }
    {
        let place = usize::from(number);
        let (values, allowed) = (&self.entry.regs[..], &upper.regs[..]);
        let is_written = is_among_written(written, self.before, number);
        is_byte_within(
            is_written,
            self.after.regs[place],
            self.before.regs[place],
            &values[place],
            &allowed[place],
        )
    }
}
