// Lists of entries, in the order of their addresses.
ghost use Rattle.std.specs.Prelude.{◌≡◌, ◌==◌, ◌&&◌, [], ◌∷◌, ◌++◌, OnErr, OnOk, length, map};
ghost use Rattle.std.specs.Option.{option_eq};
ghost use Rattle.abs_domain.specs.Joins.{is_status_below};
ghost use Rattle.abs_domain.specs.Lattice.{is_fact_below};
ghost use Rattle.abs_domain.specs.StateView.{state_of, status_of};
ghost use Rattle.abs_step.specs.StepView.{invariant_at};
ghost use Rattle.value_sets.specs.SetViews.{byte_values, word_values};
ghost use Rattle.value_sets.specs.ValueSets.{are_among, is_each_within, is_within};
ghost use Rattle.case_step.specs.Ascending.{AreBefore};
ghost use Rattle.case_step.specs.Entries.{start_entry};
ghost use Rattle.case_step.specs.EntryViews.{entry_view};
ghost use Rattle.case_step.specs.Results.{is_covered, is_covered_by, is_same_below, result as spelled_result};

use super::entry::Entry;
use super::outcome::{Outcome, are_all_among};
use abs_domain::Bit;
use std::alloc::{AllocError, Global};
use std::marker::Model;
use value_sets::{ByteSet, WordSet};

/// A list of entries in the order of their addresses, of which several may stand at one (this project's own). Contracts see the list.
#[derive(Debug, Drop)]
pub struct CaseList {
    entries: Vec<Entry>,
}

impl Model for CaseList {
    ghost use Rattle.std.specs.Prelude.{List, map};
    ghost use Rattle.case_step.specs.Ascending.{Ascends};
    ghost use Rattle.case_step.specs.Entries.{EntryView};
    ghost use Rattle.case_step.specs.EntryViews.{entry_view};

    ghost Value = { List EntryView };

    ghost view = { λ l. map entry_view l.entries.items };

    ghost invariant = { λ l. Ascends (map entry_view l.entries.items) };
}

impl CaseList {
    /// No entry. No memory is taken yet.
    pub fn new(alloc: Global) -> CaseList
        ensures { result ≡ [] }
    {
        CaseList {
            entries: Vec::new(alloc),
        }
    }

    /// The entries.
    pub fn as_slice(&self) -> &[Entry]
        ensures { map entry_view result.now ≡ self.now }
    {
        self.entries.as_slice()
    }

    /// How many there are.
    pub fn len(&self) -> usize
        ensures { result ≡ length self.now }
    {
        self.entries.len()
    }

    /// Adds an entry behind the others, none of which is at a later address.
    ///
    /// # Errors
    ///
    /// Memory is missing, and the list is as it was.
    pub fn push(&mut self, entry: Entry) -> Result<(), AllocError>
        requires { AreBefore entry.at self.old }
        ensures added { OnOk result (self.new ≡ self.old ++ entry_view entry ∷ []) }
        ensures same { OnErr result (self.new ≡ self.old) }
    {
        self.entries.push(entry)?;
        Ok(())
    }

    /// Some entry covers the result of a case.
    pub fn covers(&self, outcome: &Outcome<'_>) -> bool
        ensures { result ≡ is_covered self.now
            (spelled_result outcome.now.op (entry_view outcome.now.entry.now)
            (state_of outcome.now.before.now)
            (invariant_at outcome.now.point outcome.now.after.now)) }
    {
        let at = outcome.point.at;
        let first = self.entries.partition_point(|entry| entry.at < at);
        self.entries[first..]
            .iter()
            .take_while(|entry| entry.at == at)
            .any(|entry| outcome.is_covered_by(entry))
    }

    /// Some entry covers the start, as reset leaves the F8.
    pub fn covers_start(&self) -> bool
        ensures { result ≡ is_covered self.now start_entry }
    {
        self.entries.iter().any(|entry| is_start_covered_by(entry))
    }
}

/// The entry is at the start's address, with no return.
fn is_at_start(upper: &Entry) -> bool
    ensures { result ≡ (start_entry.at == upper.now.at
        && option_eq (λ x y. x == y) start_entry.ret upper.now.ret) }
{
    upper.at == 0 && upper.ret.is_none()
}

/// Each bit of the status word may be clear.
fn may_be_clear(bits: &[Bit; 5]) -> bool
    ensures { result ≡ is_status_below start_entry.status (status_of bits.now) }
{
    bits.iter().all(|bit| Bit::Known(false).below(*bit))
}

/// The accumulator and ISAR may be anything, and the status word may be clear.
fn are_registers_free(upper: &Entry) -> bool
    ensures { result ≡ (is_within start_entry.accumulator (byte_values upper.now.a)
        && are_among upper.now.isar.items start_entry.isar
        && is_status_below start_entry.status (status_of upper.now.w)) }
{
    ByteSet::Any.is_within(&upper.a)
        && are_all_among(upper.isar.as_slice())
        && may_be_clear(&upper.w)
}

/// The data counters may be as reset leaves them, and no fact is stated of them.
fn are_counters_free(upper: &Entry) -> bool
    ensures { result ≡ (is_within start_entry.d0 (word_values upper.now.d0)
        && is_within start_entry.d1 (word_values upper.now.d1)
        && is_within start_entry.c (word_values upper.now.c)
        && is_fact_below start_entry.s0 upper.now.s0 && is_fact_below start_entry.s1 upper.now.s1
        && is_fact_below start_entry.p0 upper.now.p0 && is_fact_below start_entry.p1 upper.now.p1) }
{
    upper.d0.has(0)
        && upper.d1.has(0)
        && WordSet::Any.is_within(&upper.c)
        && !(upper.s0 || upper.s1 || upper.p0 || upper.p1)
}

/// No register need hold the accumulator's byte, and each may hold any.
fn is_scratchpad_free(upper: &Entry) -> bool
    ensures { result ≡ (is_same_below start_entry upper.now.same
        && is_each_within start_entry.scratchpad (map byte_values upper.now.regs)) }
{
    upper.same.is_none() && upper.regs.iter().all(|set| ByteSet::Any.is_within(set))
}

/// The entry covers the start.
fn is_start_covered_by(upper: &Entry) -> bool
    ensures { result ≡ is_covered_by start_entry (entry_view upper.now) }
{
    is_at_start(upper)
        && are_registers_free(upper)
        && are_counters_free(upper)
        && is_scratchpad_free(upper)
}
