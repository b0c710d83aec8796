// The entry of a line.
ghost use Rattle.std.specs.Prelude.{◌≡◌, Some, None, IfOk, MatchResult, option_map};
ghost use Rattle.case_step.specs.EntryViews.{entry_view};
ghost use Rattle.line_words.specs.Words.{words};
ghost use Rattle.case_text.specs.EntryWords.{entry_of as spelled_entry};

use super::words::LineWords;
use case_step::Entry;
use std::alloc::{AllocError, Global};

/// Why words are no entry.
#[derive(Clone, Copy, Debug)]
enum NoEntry {
    /// They are out of form.
    Form,
    /// Memory is missing. It says nothing of the words.
    Memory,
}

impl From<AllocError> for NoEntry {
    ghost use Rattle.std.specs.Prelude.{◌≡◌};
    ghost use Rattle.case_text.specs.declared.entry_line.NoEntry.TheVariants.{Memory};

    ghost from_gives = { λ _ fault. fault ≡ Memory };

    fn from(_error: AllocError) -> NoEntry {
        NoEntry::Memory
    }
}

/// The entry of all words that are left.
#[tactic(auto, unfolding(crate::specs::EntryWords::entry_of))]
fn entry_in(alloc: Global, words: &mut LineWords<'_>) -> Result<Entry, NoEntry>
    ensures { MatchResult result (λ entry. spelled_entry words.old ≡ Some (entry_view entry))
        (λ fault. fault ≡ NoEntry.Form → spelled_entry words.old ≡ None) }
{
    let at = words.address().ok_or(NoEntry::Form)?;
    let ret = words.return_address().ok_or(NoEntry::Form)?;
    let a = words.byte_set().ok_or(NoEntry::Form)?;
    let isar = words.numbers().ok_or(NoEntry::Form)?;
    let w = words.status().ok_or(NoEntry::Form)?;
    let d0 = words.word_set(alloc)?.ok_or(NoEntry::Form)?;
    let d1 = words.word_set(alloc)?.ok_or(NoEntry::Form)?;
    let c = words.word_set(alloc)?.ok_or(NoEntry::Form)?;
    let facts = words.facts().ok_or(NoEntry::Form)?;
    let same = words.same().ok_or(NoEntry::Form)?;
    let regs = words.scratchpad().ok_or(NoEntry::Form)?;
    if words.next().is_some() {
        return Err(NoEntry::Form);
    }
    Ok(Entry {
        at,
        ret,
        a,
        isar,
        w,
        d0,
        d1,
        c,
        s0: facts.s0,
        s1: facts.s1,
        p0: facts.p0,
        p1: facts.p1,
        same,
        regs,
    })
}

/// The entry of a line without its end, or none where its words are out of form. Memory is taken for lists of words alone.
pub fn entry_of(alloc: Global, line: &[u8]) -> Result<Option<Entry>, AllocError>
    ensures { IfOk result (λ entry. option_map entry_view entry ≡ spelled_entry (words line.now)) }
{
    match entry_in(alloc, &mut LineWords::of(line)) {
        Ok(entry) => Ok(Some(entry)),
        Err(NoEntry::Form) => Ok(None),
        Err(NoEntry::Memory) => Err(AllocError),
    }
}
