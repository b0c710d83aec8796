// The cases of an entry under an instruction.
ghost use Rattle.std.specs.Prelude.{◌≡◌, ℕ, ◌<◌, ◌≤◌, [], ◌∷◌, ◌++◌, if◌then◌else◌, length, map, slice_index_or, ◌==◌};
ghost use Rattle.std.specs.Prelude.{All, IfOk, OnOk, Some, None, option_map};
ghost use Rattle.std.specs.List.{range_with_len};
ghost use Rattle.abs_domain.specs.AbstractState.{AbstractState};
ghost use Rattle.abs_domain.specs.KnownParts.{known_bit, known_byte};
ghost use Rattle.abs_domain.specs.StateView.{state_of, status_of};
ghost use Rattle.abs_domain.specs.declared.values.Bit.TheVariants.{Any, Known};
ghost use Rattle.value_sets.specs.SetViews.{byte_values, word_values};
ghost use Rattle.value_sets.specs.ValueSets.{single as spelled_single};
ghost use Rattle.case_step.specs.Cases.{byte_cases, byte_spread as spelled_spread, cases_at, each_case, flag_spread};
ghost use Rattle.case_step.specs.Cases.{part_cases as spelled_part, plain_case as spelled_plain, register_cases};
ghost use Rattle.case_step.specs.Cases.{spread_cases as spelled_spread_cases};
ghost use Rattle.case_step.specs.Cases.{same_accumulator as spelled_same_accumulator};
ghost use Rattle.case_step.specs.Cases.{same_register_byte as spelled_same_byte};
ghost use Rattle.case_step.specs.Cases.{with_accumulator as spelled_accumulator};
ghost use Rattle.case_step.specs.Cases.{with_data_counter as spelled_data_counter};
ghost use Rattle.case_step.specs.Cases.{with_isar as spelled_isar, with_register as spelled_register, with_status};
ghost use Rattle.case_step.specs.EntryViews.{entry_view, states_of};
ghost use Rattle.case_step.specs.declared.part.Part.TheVariants.{Accumulator, Register};

use super::entry::Entry;
use super::part::Part;
use super::pointed::pointed_register;
use super::reads::parts_read;
use super::spread::Spread;
use abs_domain::{Abs, Bit, Digit, SCRATCHPAD_SIZE, Val, Word};
use arrayvec::ArrayVec;
use f8_ops::Op;
use std::alloc::{AllocError, Global};
use std::marker::Model;
use std::mem;
use value_sets::{ByteSet, WordSet, only};

/// The most cases of an entry.
pub const MOST_CASES: usize = 4096;

/// The registers of which an entry gives one value are known.
fn known_registers(regs: &[ByteSet; SCRATCHPAD_SIZE]) -> [Val; SCRATCHPAD_SIZE]
    ensures { map known_byte result ≡ map (λ set. spelled_single (byte_values set)) regs.now }
{
    let mut known = [Val::Any; SCRATCHPAD_SIZE];
    for number in 0..SCRATCHPAD_SIZE {
        known[number] = Val::from(regs[number].single());
    }
    known
}

/// The case before any part is given a value: parts of one value are known.
fn plain_case(entry: &Entry) -> Abs
    ensures { state_of result ≡ spelled_plain (entry_view entry.now) }
{
    let isar = only(entry.isar.as_slice());
    let c = if entry.p0 {
        entry.d0.single()
    } else {
        entry.c.single()
    };
    Abs {
        a: Val::from(entry.a.single()),
        regs: known_registers(&entry.regs),
        hi: Digit::from(isar.map(|number| number / 8)),
        lo: Digit::from(isar.map(|number| number % 8)),
        w: entry.w,
        d0: Word::from(entry.d0.single()),
        d1: Word::from(entry.d1.single()),
        c: Word::from(c),
        s0: entry.s0,
        s1: entry.s1,
        p0: entry.p0,
        p1: entry.p1,
    }
}

/// Values of a byte, for each of which there is a case.
type Bytes = ArrayVec<u8, 256>;

/// Every byte.
fn every_byte() -> Bytes
    ensures { result.items ≡ range_with_len 0 256 }
{
    let mut bytes = Bytes::new();
    for byte in 0..=255 {
        bytes.push(byte);
    }
    bytes
}

/// The bytes of a list.
fn listed(numbers: &[u8]) -> Bytes
    requires { length numbers.now ≤ 256 }
    ensures { result.items ≡ numbers.now }
{
    let mut bytes = Bytes::new();
    for byte in numbers {
        bytes.push(*byte);
    }
    bytes
}

/// The values that a byte gets, by how far bytes are spread, and `None` where it stays as it is.
fn byte_spread(spread: Spread, values: &ByteSet) -> Option<Bytes>
    ensures { option_map (λ bytes. bytes.items) result
        ≡ spelled_spread spread (byte_values values.now) }
{
    match (spread, values) {
        (Spread::EachByte, ByteSet::Any) => Some(every_byte()),
        (Spread::EachByte | Spread::ListedBytes, ByteSet::Among(bytes)) => {
            Some(listed(bytes.as_slice()))
        },
        (Spread::ListedBytes, ByteSet::Any) | (Spread::NoByte, _) => None,
    }
}

/// The same where another part may have the byte too. What is known of it there is then its only value, if its own values have that.
fn tied_spread(tied: Option<u8>, spread: Spread, values: &ByteSet) -> Option<Bytes>
    ensures { (with_value : ℕ → AbstractState) (case : AbstractState) →
        each_case with_value case (option_map (λ bytes. bytes.items) result)
        ≡ byte_cases tied spread (byte_values values.now) with_value case }
{
    let Some(byte) = tied else {
        return byte_spread(spread, values);
    };
    let mut bytes = Bytes::new();
    if values.has(byte) {
        bytes.push(byte);
    }
    Some(bytes)
}

/// A case in which the accumulator has this byte.
fn with_accumulator(byte: u8, mut case: Abs) -> Abs
    ensures { state_of result ≡ spelled_accumulator byte (state_of case) }
{
    case.a = Val::Known(byte);
    case
}

/// A case in which a register has this byte.
fn with_register(number: u8, byte: u8, mut case: Abs) -> Abs
    requires { number < SCRATCHPAD_SIZE }
    ensures { state_of result ≡ spelled_register number byte (state_of case) }
{
    case.regs[usize::from(number)] = Val::Known(byte);
    case
}

/// A case in which ISAR is this number.
fn with_isar(number: u8, mut case: Abs) -> Abs
    requires { number < SCRATCHPAD_SIZE }
    ensures { state_of result ≡ spelled_isar number (state_of case) }
{
    case.hi = Digit::Known(number / 8);
    case.lo = Digit::Known(number % 8);
    case
}

/// A case in which the flag at a place of the status word is this one.
fn with_flag(place: usize, flag: bool, mut case: Abs) -> Abs
    requires { place < 5 }
    ensures { state_of result
        ≡ with_status (status_of
        (map (λ k. if k == place then Known flag else slice_index_or case.w k Any)
        (range_with_len 0 5)))
        (state_of case) }
{
    case.w[place] = Bit::Known(flag);
    case
}

/// A case in which D0 is this address. The DC0 of each 3851 goes with it, where it is D0.
fn with_data_counter(at: u16, mut case: Abs) -> Abs
    ensures { state_of result ≡ spelled_data_counter at (state_of case) }
{
    case.d0 = Word::Known(at);
    if case.p0 {
        case.c = Word::Known(at);
    }
    case
}

/// The byte of the register that holds the accumulator's, where it is known.
fn same_register_byte(entry: &Entry, case: &Abs) -> Option<u8>
    ensures { result ≡ spelled_same_byte entry.now.same (state_of case.now) }
{
    let number = entry.same?;
    case.regs[usize::from(number)].known()
}

/// The accumulator's byte, where it is known and this register holds it.
fn same_accumulator(entry: &Entry, number: u8, case: &Abs) -> Option<u8>
    ensures { result ≡ spelled_same_accumulator entry.now.same number (state_of case.now) }
{
    if entry.same == Some(number) {
        case.a.known()
    } else {
        None
    }
}

/// Adds a case for each value of the accumulator.
fn add_accumulator_cases(
    out: &mut Vec<Abs>,
    spread: Spread,
    entry: &Entry,
    case: &Abs,
) -> Result<(), AllocError>
    ensures { OnOk result (states_of out.new.items
        ≡ states_of out.old.items
        ++ spelled_part spread (entry_view entry.now) Accumulator (state_of case.now)) }
{
    let tied = same_register_byte(entry, case);
    let Some(bytes) = tied_spread(tied, spread, &entry.a) else {
        out.push(*case)?;
        return Ok(());
    };
    for byte in bytes.as_slice() {
        out.push(with_accumulator(*byte, *case))?;
    }
    Ok(())
}

/// Adds a case for each value of a register.
fn add_register_cases(
    out: &mut Vec<Abs>,
    spread: Spread,
    entry: &Entry,
    number: u8,
    case: &Abs,
) -> Result<(), AllocError>
    requires { number < SCRATCHPAD_SIZE }
    ensures { OnOk result (states_of out.new.items
        ≡ states_of out.old.items
        ++ register_cases spread (entry_view entry.now) (Some number) (state_of case.now)) }
{
    let tied = same_accumulator(entry, number, case);
    let Some(bytes) = tied_spread(tied, spread, &entry.regs[usize::from(number)]) else {
        out.push(*case)?;
        return Ok(());
    };
    for byte in bytes.as_slice() {
        out.push(with_register(number, *byte, *case))?;
    }
    Ok(())
}

/// Adds a case for each number that ISAR may have.
fn add_isar_cases(out: &mut Vec<Abs>, entry: &Entry, case: &Abs) -> Result<(), AllocError>
    ensures { OnOk result (states_of out.new.items
        ≡ states_of out.old.items
        ++ map (λ number. spelled_isar number (state_of case.now)) entry.now.isar.items) }
{
    for number in entry.isar.as_slice() {
        out.push(with_isar(*number, *case))?;
    }
    Ok(())
}

/// Adds a case for each value of the flag at a place of the status word.
fn add_flag_cases(
    out: &mut Vec<Abs>,
    entry: &Entry,
    place: usize,
    case: &Abs,
) -> Result<(), AllocError>
    requires { place < 5 }
    ensures { OnOk result (states_of out.new.items ≡ states_of out.old.items
        ++ each_case (λ flag. with_status (status_of
        (map (λ k. if k == place then Known flag else slice_index_or case.now.w k Any)
        (range_with_len 0 5)))
        (state_of case.now))
        (state_of case.now) (flag_spread (known_bit (slice_index_or entry.now.w place Any)))) }
{
    if entry.w[place] != Bit::Any {
        out.push(*case)?;
        return Ok(());
    }
    out.push(with_flag(place, false, *case))?;
    out.push(with_flag(place, true, *case))?;
    Ok(())
}

/// Adds a case for each address that D0 may have.
fn add_data_cases(out: &mut Vec<Abs>, entry: &Entry, case: &Abs) -> Result<(), AllocError>
    ensures { OnOk result (states_of out.new.items ≡ states_of out.old.items
        ++ each_case (λ at. spelled_data_counter at (state_of case.now)) (state_of case.now)
        (word_values entry.now.d0)) }
{
    let WordSet::Among(words) = &entry.d0 else {
        out.push(*case)?;
        return Ok(());
    };
    for at in words.as_slice() {
        out.push(with_data_counter(*at, *case))?;
    }
    Ok(())
}

/// Adds the cases of a case with one part more that has one value.
fn add_part_cases(
    out: &mut Vec<Abs>,
    spread: Spread,
    entry: &Entry,
    part: Part,
    case: &Abs,
) -> Result<(), AllocError>
    requires { (number : ℕ) → part ≡ Register number → number < SCRATCHPAD_SIZE }
    ensures { OnOk result (states_of out.new.items
        ≡ states_of out.old.items
        ++ spelled_part spread (entry_view entry.now) part (state_of case.now)) }
{
    match part {
        Part::Accumulator => add_accumulator_cases(out, spread, entry, case),
        Part::Isar => add_isar_cases(out, entry, case),
        Part::Sign => add_flag_cases(out, entry, 0, case),
        Part::Carry => add_flag_cases(out, entry, 1, case),
        Part::Zero => add_flag_cases(out, entry, 2, case),
        Part::Overflow => add_flag_cases(out, entry, 3, case),
        Part::Icb => add_flag_cases(out, entry, 4, case),
        Part::Register(number) => add_register_cases(out, spread, entry, number, case),
        Part::Pointed => match pointed_register(case) {
            Some(number) => add_register_cases(out, spread, entry, number, case),
            None => {
                out.push(*case)?;
                Ok(())
            },
        },
        Part::DataCounter => add_data_cases(out, entry, case),
    }
}

/// Makes of each case those with one part more that has one value, and tells whether they are no more than 4,096. Where they are more, it
/// makes some of them.
fn spread_cases(
    more: &mut Vec<Abs>,
    spread: Spread,
    entry: &Entry,
    part: Part,
    cases: &[Abs],
) -> Result<bool, AllocError>
    requires { (number : ℕ) → part ≡ Register number → number < SCRATCHPAD_SIZE }
    ensures { IfOk result (λ all. (if all then Some (states_of more.new.items) else None)
        ≡ spelled_spread_cases spread (entry_view entry.now) (part ∷ []) (states_of cases.now)) }
{
    more.clear();
    for case in cases {
        add_part_cases(more, spread, entry, part, case)?;
        if more.len() > MOST_CASES {
            return Ok(false);
        }
    }
    Ok(true)
}

/// The cases of an entry, in a list whose memory lasts from entry to entry. Contracts see the list.
#[derive(Drop)]
pub struct Cases {
    list: Vec<Abs>,
    more: Vec<Abs>,
}

impl Model for Cases {
    ghost use Rattle.std.specs.Prelude.{List};
    ghost use Rattle.abs_domain.specs.AbstractState.{AbstractState};
    ghost use Rattle.case_step.specs.EntryViews.{states_of};

    ghost Value = { List AbstractState };

    ghost view = { λ c. states_of c.list.items };
}

impl Cases {
    /// No case.
    pub fn new(alloc: Global) -> Cases
        ensures { result ≡ [] }
    {
        Cases {
            list: Vec::new(alloc),
            more: Vec::new(alloc),
        }
    }

    /// The cases.
    pub fn as_slice(&self) -> &[Abs]
        ensures { states_of result.now ≡ self.now }
    {
        self.list.as_slice()
    }

    /// Makes them the cases of an entry under an instruction, or its one case where no instruction is known: every byte that is read gets
    /// one value, where that makes no more than 4,096 cases; else each of which the values are listed; else none.
    ///
    /// # Errors
    ///
    /// Memory is missing: for up to 4,608 cases twice.
    pub fn fill(&mut self, op: Option<Op>, entry: &Entry) -> Result<(), AllocError>
        ensures { OnOk result (self.new ≡ cases_at op (entry_view entry.now)) }
    {
        let plain = plain_case(entry);
        if let Some(op) = op {
            let reads = parts_read(op);
            for spread in [Spread::EachByte, Spread::ListedBytes, Spread::NoByte] {
                if self.spread(spread, entry, reads.as_slice(), plain)? {
                    return Ok(());
                }
            }
        }
        self.list.clear();
        self.list.push(plain)?;
        Ok(())
    }

    /// Makes them the cases by some parts, and tells whether there aren't too many behind any part. Where there are, any cases may be left.
    fn spread(
        &mut self,
        spread: Spread,
        entry: &Entry,
        parts: &[Part],
        plain: Abs,
    ) -> Result<bool, AllocError>
        requires { All (λ part. (number : ℕ) → part ≡ Register number →
            number < SCRATCHPAD_SIZE) parts.now }
        ensures { IfOk result (λ all. (if all then Some self.new else None)
            ≡ spelled_spread_cases spread (entry_view entry.now) parts.now (state_of plain ∷ [])) }
    {
        self.list.clear();
        self.list.push(plain)?;
        for part in parts {
            if !self.spread_part(spread, entry, *part)? {
                return Ok(false);
            }
        }
        Ok(true)
    }

    /// Makes of each case those with one part more that has one value, and tells whether they are no more than 4,096. Where they are more,
    /// some of them are left.
    fn spread_part(&mut self, spread: Spread, entry: &Entry, part: Part) -> Result<bool, AllocError>
        requires { (number : ℕ) → part ≡ Register number → number < SCRATCHPAD_SIZE }
        ensures { IfOk result (λ all. (if all then Some self.new else None)
            ≡ spelled_spread_cases spread (entry_view entry.now) (part ∷ []) self.old) }
    {
        let all = spread_cases(&mut self.more, spread, entry, part, self.list.as_slice())?;
        mem::swap(&mut self.list, &mut self.more);
        Ok(all)
    }
}
