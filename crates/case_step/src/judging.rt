// What is found of a list of entries, whoever made it.
ghost use Rattle.std.specs.Prelude.{◌≡◌, IfOk, None, replicate};
ghost use Rattle.std.specs.List.{list_all};
ghost use Rattle.abs_domain.specs.StateView.{state_of};
ghost use Rattle.abs_step.specs.MapView.{view_of};
ghost use Rattle.case_step.specs.CaseLists.{op_of, cases_failure, case_failure, first_open as spelled_open};
ghost use Rattle.case_step.specs.CaseLists.{is_case_fault_free, judged};
ghost use Rattle.case_step.specs.EntryViews.{entry_view, states_of};

use super::answer::CasesAnswer;
use super::cases::Cases;
use super::entry::Entry;
use super::list::CaseList;
use super::outcome::Outcome;
use abs_domain::{Abs, MOST_TRACKED, Point};
use abs_step::{Successors, after, instruction_at, whole};
use cart_data::Split;
use f8_ops::Op;
use f8_spec::Memory;
use memory_map::Map;
use std::alloc::Global;

/// The point of an address and a return, where no register is tracked.
fn point_of(address: u16, back: Option<u16>) -> Point
    ensures { result ≡ record { at = address; ret = back; split = replicate 8 None } }
{
    Point {
        at: address,
        ret: back,
        split: [None; MOST_TRACKED],
    }
}

/// The point of the first result of a case that no entry covers.
fn first_open(
    list: &CaseList,
    op: Op,
    entry: &Entry,
    case: &Abs,
    ways: &Successors,
) -> Option<Point>
    ensures { result ≡ spelled_open list.now op (entry_view entry.now)
        (state_of case.now) ways.now }
{
    for place in 0..ways.len() {
        if let Some((point, state)) = ways.get(place) {
            let outcome = Outcome {
                op,
                entry,
                before: case,
                point,
                after: &state,
            };
            if !list.covers(&outcome) {
                return Some(point);
            }
        }
    }
    None
}

/// The failure of a case: it isn't safe, or else it leads to what isn't covered.
fn failure_of(
    list: &CaseList,
    place: usize,
    op: Option<Op>,
    entry: &Entry,
    case: &Abs,
    map: &Map,
) -> Option<CasesAnswer>
    requires { op ≡ op_of (view_of map.now) (entry_view entry.now) }
    ensures { result ≡ case_failure (view_of map.now) list.now place (entry_view entry.now)
        (state_of case.now) }
{
    let point = point_of(entry.at, entry.ret);
    match after(case, &point, &Split::new(), map) {
        Ok(ways) => {
            let to = first_open(list, op?, entry, case, &ways)?;
            Some(CasesAnswer::NotClosed {
                from: Some(place),
                to,
            })
        },
        Err(reason) => Some(CasesAnswer::Unsafe {
            entry: place,
            reason,
        }),
    }
}

/// That of the first case that has one.
fn first_failure(
    list: &CaseList,
    place: usize,
    op: Option<Op>,
    entry: &Entry,
    cases: &[Abs],
    map: &Map,
) -> Option<CasesAnswer>
    requires { op ≡ op_of (view_of map.now) (entry_view entry.now) }
    ensures { result ≡ cases_failure (view_of map.now) list.now place (entry_view entry.now)
        (states_of cases.now) }
{
    for case in cases {
        let failure = failure_of(list, place, op, entry, case, map);
        if failure.is_some() {
            return failure;
        }
    }
    None
}

/// Each case of an entry is free of faults.
fn are_fault_free(entry: &Entry, cases: &[Abs], map: &Map) -> bool
    ensures { result ≡ list_all (is_case_fault_free (view_of map.now) (entry_view entry.now))
        (states_of cases.now) }
{
    let point = point_of(entry.at, entry.ret);
    cases.iter().all(|case| whole(case, &point, map))
}

/// What is found of a list of entries over the map of some chips, whoever made it (this project's own): whether it is closed, and each case
/// of it is safe, and free of faults besides; or the first failure, which is that of the start or else that of the first entry, there of its
/// first case, and there a case that isn't safe before what it leads to, in its order.
///
/// # Errors
///
/// Memory is missing for the cases of an entry: up to 4,608 states twice.
pub fn judge(alloc: Global, list: &CaseList, map: &Map) -> Result<CasesAnswer, Memory>
    ensures { IfOk result (λ answer. answer ≡ judged (view_of map.now) list.now) }
{
    if !list.covers_start() {
        return Ok(CasesAnswer::NotClosed {
            from: None,
            to: point_of(0, None),
        });
    }
    let mut cases = Cases::new(alloc);
    let mut is_fault_free = true;
    for (place, entry) in list.as_slice().iter().enumerate() {
        let op = instruction_at(map, entry.at);
        cases.fill(op, entry).map_err(|_| Memory)?;
        if let Some(failure) = first_failure(list, place, op, entry, cases.as_slice(), map) {
            return Ok(failure);
        }
        is_fault_free = is_fault_free && are_fault_free(entry, cases.as_slice(), map);
    }
    Ok(if is_fault_free {
        CasesAnswer::Whole
    } else {
        CasesAnswer::Agreed
    })
}
