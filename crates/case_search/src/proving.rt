// The proof of a cartridge by a list of entries.
ghost use Rattle.std.specs.Prelude.{◌≡◌, IfOk, Some, false, true, if◌then◌else◌, is_some, map, option_map};
ghost use Rattle.std.specs.Option.{ForSome, option_or};
ghost use Rattle.abs_step.specs.MapView.{chips_view};
ghost use Rattle.cart_checker.specs.Verdicts.{IsFaultFreeCart, IsSafeCart};
ghost use Rattle.case_step.specs.EntryViews.{entry_view};
ghost use Rattle.case_search.specs.ProvedLists.{found_of, IsNoLess, is_shown, is_whole, is_whole_found, judged_entries};
ghost use Rattle.case_search.specs.ProvedLists.{Shows};

use super::round::untracked;
use super::searching::{Found, search};
use abs_domain::{Point, Reason};
use abs_step::map_view_law;
use cart_checker::{Verdict, check_cart};
use cart_data::Cart;
use case_step::{CasesAnswer, Entry, judged_law};
use case_text::{CasesError, confirm, read_cases, write_cases, written_law};
use f8_spec::Memory;
use memory_map::Map;
use noted_cases::{noted_entries, noted_law};
use std::alloc::Global;

/// A list of entries as a text, with how many they are.
#[derive(Debug, Drop)]
pub struct CasesText {
    pub text: Vec<u8>,
    pub entries: usize,
}

/// What is found of a cartridge by a search for a list of entries (this project's own).
#[derive(Debug, Drop)]
pub enum ProveAnswer {
    /// This list is closed, and each case of it is safe and free of faults: every bus step of every run is served.
    Whole(CasesText),

    /// This list is closed and each case of it is safe, but in some case a read at the data counter may find no chip that answers.
    Agreed(CasesText),

    /// None is found. The search gave up at this point: for this reason, or for want of entries.
    Unproved {
        point: Point,
        reason: Option<Reason>,
    },
}

/// The text of some entries, where the list that is read from it shows the cartridge.
fn shown(alloc: Global, cart: &Cart, entries: &[Entry]) -> Result<Option<ProveAnswer>, Memory>
    ensures shows { IfOk result (λ shown. ForSome shown (Shows cart.now.chips)) }
    ensures told { IfOk result (λ shown. ForSome shown (λ answer. is_shown answer ≡ true)) }
    ensures found { IfOk result (λ shown. option_map is_whole shown
        ≡ found_of (judged_entries (chips_view cart.now.chips) (map entry_view entries.now))) }
{
    let Some(text) = write_cases(alloc, entries)? else {
        return Ok(None);
    };
    let list = match read_cases(alloc, text.as_slice()) {
        Ok(list) => list,
        Err(CasesError::Memory) => return Err(Memory),
        Err(CasesError::Fault(_)) => return Ok(None),
    };
    let entries = list.len();
    Ok(match confirm(alloc, cart, &list)? {
        CasesAnswer::Whole => Some(ProveAnswer::Whole(CasesText { text, entries })),
        CasesAnswer::Agreed => Some(ProveAnswer::Agreed(CasesText { text, entries })),
        CasesAnswer::NotClosed { .. } | CasesAnswer::Unsafe { .. } => None,
    })
}

/// The list that a search found, where there is one and it shows the cartridge.
fn by_search(alloc: Global, cart: &Cart, found: &Found) -> Result<Option<ProveAnswer>, Memory>
    ensures shows { IfOk result (λ shown. ForSome shown (Shows cart.now.chips)) }
    ensures told { IfOk result (λ shown. ForSome shown (λ answer. is_shown answer ≡ true)) }
{
    match &found.entries {
        Some(entries) => shown(alloc, cart, entries.as_slice()),
        None => Ok(None),
    }
}

/// The least map of states at points as a list of entries, where there is one that is closed and safe.
fn by_states(alloc: Global, cart: &Cart) -> Result<Option<ProveAnswer>, Memory>
    ensures shows { IfOk result (λ shown. ForSome shown (Shows cart.now.chips)) }
    ensures told { IfOk result (λ shown. ForSome shown (λ answer. is_shown answer ≡ true)) }
    ensures whole { IfOk result
        (λ shown. IsFaultFreeCart cart.now → option_map is_whole shown ≡ Some true) }
    ensures safe { IfOk result (λ shown. IsSafeCart cart.now → is_some shown ≡ true) }
{
    map_view_law();
    noted_law();
    written_law();
    judged_law();
    let notes = match check_cart(alloc, cart)? {
        Verdict::Whole(notes) | Verdict::Agreed(notes) => notes,
        Verdict::Refused { .. } | Verdict::TooMany => return Ok(None),
    };
    let Ok(entries) = noted_entries(alloc, &notes) else {
        return Err(Memory);
    };
    shown(alloc, cart, entries.as_slice())
}

/// There is an answer, and its list is whole.
fn is_found_whole(answer: &Option<ProveAnswer>) -> bool
    ensures { result ≡ is_whole_found answer.now }
{
    matches!(answer, Some(ProveAnswer::Whole(_)))
}

/// Of two answers the one that is whole, and else the first that there is.
fn better(first: Option<ProveAnswer>, second: Option<ProveAnswer>) -> Option<ProveAnswer>
    ensures { result ≡ (if is_whole_found second then second else option_or first second) }
{
    if is_found_whole(&second) {
        second
    } else {
        first.or(second)
    }
}

/// Where a search gave up that found no list; and the start, where it found one that is too long for a text.
fn unproved(found: &Found) -> ProveAnswer
    ensures { is_shown result ≡ false }
{
    match found.gave_up {
        Some(gave_up) if found.entries.is_none() => ProveAnswer::Unproved {
            point: gave_up.point,
            reason: gave_up.reason,
        },
        _ => ProveAnswer::Unproved {
            point: untracked(0, None),
            reason: None,
        },
    }
}

/// Looks for a list of entries that shows a cartridge (this project's own): one that a search finds, which keeps sets of values, and else
/// the least map of states at points by which the cartridge is checked. What is found is read from its text and judged before it is told,
/// so nothing is taken on trust of the search; and it says no less than `check_cart` does.
///
/// # Errors
///
/// Memory is missing.
pub fn prove(alloc: Global, cart: &Cart) -> Result<ProveAnswer, Memory>
    ensures shows { IfOk result (Shows cart.now.chips) }
    ensures no_less { IfOk result (IsNoLess cart.now) }
{
    let map = Map::of(alloc, &cart.chips)?;
    let found = search(alloc, &map).map_err(|_| Memory)?;
    let first = by_search(alloc, cart, &found)?;
    let answer = if is_found_whole(&first) {
        first
    } else {
        better(first, by_states(alloc, cart)?)
    };
    Ok(answer.unwrap_or(unproved(&found)))
}
