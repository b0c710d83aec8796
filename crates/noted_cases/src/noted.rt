// The entries of what is known at points.
ghost use Rattle.std.specs.Prelude.{◌≡◌, ◌<◌, IfOk, map};
ghost use Rattle.std.specs.List.{All};
ghost use Rattle.abs_domain.specs.KnownParts.{known_byte, known_digit, known_word};
ghost use Rattle.abs_step.specs.RegisterWrites.{digit_allows};
ghost use Rattle.abs_step.specs.StatesAtPoints.{state_in};
ghost use Rattle.value_sets.specs.SetViews.{byte_values, word_values};
ghost use Rattle.value_sets.specs.ValueSets.{set_of};
ghost use Rattle.case_step.specs.EntryViews.{entry_view};
ghost use Rattle.noted_cases.specs.NotedEntries.{noted_entry as spelled_entry, numbers_by as spelled_numbers};

use abs_domain::{Abs, Digit, Point, SCRATCHPAD_SIZE, Val, Word};
use abs_step::Annotation;
use arrayvec::ArrayVec;
use case_step::{Entry, IsarSet};
use std::alloc::{AllocError, Global};
use std::array;
use value_sets::{ByteSet, WordSet};

/// The byte that is known, or any.
fn byte_set(known: Val) -> ByteSet
    ensures { byte_values result ≡ set_of (known_byte known) }
{
    let Some(byte) = known.known() else {
        return ByteSet::Any;
    };
    let mut bytes = ArrayVec::new();
    bytes.push(byte);
    ByteSet::Among(bytes)
}

/// The sets of the registers, place by place.
fn byte_sets(known: &[Val; SCRATCHPAD_SIZE]) -> [ByteSet; SCRATCHPAD_SIZE]
    ensures { map byte_values result ≡ map set_of (map known_byte known.now) }
{
    let mut sets = array::from_fn(|_| ByteSet::Any);
    for number in 0..SCRATCHPAD_SIZE {
        sets[number] = byte_set(known[number]);
    }
    sets
}

/// The word that is known, or any.
fn word_set(alloc: Global, known: Word) -> Result<WordSet, AllocError>
    ensures { IfOk result (λ set. word_values set ≡ set_of (known_word known)) }
{
    let Some(word) = known.known() else {
        return Ok(WordSet::Any);
    };
    let mut words = Vec::new(alloc);
    words.push(word)?;
    Ok(WordSet::Among(words))
}

/// A digit may be this one.
fn allows(known: Digit, digit: u8) -> bool
    ensures { result ≡ digit_allows (known_digit known) digit }
{
    known.known().is_none_or(|own| own == digit)
}

/// The numbers that ISAR may have by its two octal digits.
fn numbers_by(high: Digit, low: Digit) -> IsarSet
    ensures value { result.items
        ≡ spelled_numbers (record { high = known_digit high; low = known_digit low }) }
    ensures small { All (λ number. number < 64) result.items }
{
    let mut numbers = ArrayVec::new();
    for number in 0..64 {
        if allows(high, number / 8) && allows(low, number % 8) {
            numbers.push(number);
        }
    }
    numbers
}

/// The entry of a state at a point.
#[tactic(auto, unfolding(crate::specs::NotedEntries::noted_entry))]
fn noted_entry(alloc: Global, point: &Point, state: &Abs) -> Result<Entry, AllocError>
    ensures { IfOk result (λ entry. entry_view entry
        ≡ spelled_entry (state_in (point.now, state.now))) }
{
    Ok(Entry {
        at: point.at,
        ret: point.ret,
        a: byte_set(state.a),
        isar: numbers_by(state.hi, state.lo),
        w: state.w,
        d0: word_set(alloc, state.d0)?,
        d1: word_set(alloc, state.d1)?,
        c: word_set(alloc, state.c)?,
        s0: state.s0,
        s1: state.s1,
        p0: state.p0,
        p1: state.p1,
        same: None,
        regs: byte_sets(&state.regs),
    })
}

/// The entries of what is known at each point, in the order of the points (this project's own). Two of them may be alike, where registers
/// are tracked.
///
/// # Errors
///
/// Memory is missing.
pub fn noted_entries(alloc: Global, notes: &Annotation) -> Result<Vec<Entry>, AllocError>
    ensures { IfOk result (λ entries. map entry_view entries.items ≡ map spelled_entry notes.now) }
{
    let mut entries = Vec::with_capacity(alloc, notes.len())?;
    for (point, state) in notes.as_map() {
        entries.push(noted_entry(alloc, point, state)?)?;
    }
    Ok(entries)
}
