// What is found of an invariant map, whoever made it.
ghost use Rattle.std.specs.Prelude.{◌≡◌, ◌↔◌, IfOk, None, map};
ghost use Rattle.std.specs.List.{list_all};
ghost use Rattle.abs_domain.specs.Joins.{is_state_below};
ghost use Rattle.abs_domain.specs.PointOrder.{point_cmp};
ghost use Rattle.abs_domain.specs.StateView.{state_of};
ghost use Rattle.abs_step.specs.MapView.{view_of, chips_view};
ghost use Rattle.abs_step.specs.Safety.{is_fault_free as spelled_freedom};
ghost use Rattle.abs_step.specs.StepView.{invariant_at, invariant_of};
ghost use Rattle.abs_step.specs.StatesAtPoints.{states_of};
ghost use Rattle.abs_step.specs.Successors.{HasTrackedBytes, start_point, start_state};
ghost use Rattle.abs_step.specs.CartridgeAnalysis.{analysis, entry_of};
ghost use Rattle.abs_step.specs.ReachedStates.{IsSafelyClosed, HoldsFaultFreeStates};
ghost use Rattle.abs_step.specs.Soundness.{OnlyUndriven};
ghost use Rattle.certificate.specs.CertificateLaws.{HaveSplit, AllInRange};
ghost use Rattle.certificate.specs.Examination.{covers as spelled_cover, first_open as spelled_open};
ghost use Rattle.certificate.specs.Examination.{failure_at as spelled_failure};
ghost use Rattle.certificate.specs.Examination.{first_failure as spelled_first, examined as spelled_answer};
ghost use Rattle.certificate.specs.VerifiedMaps.{GoesOnAlways};
ghost use Rattle.certificate.specs.declared.examined.VerifyAnswer.TheVariants.{Whole, Agreed};

use super::ranges::entry_law;
use abs_domain::{Abs, Point, Reason};
use abs_step::{Annotation, Successors, after, analysis_law, map_view_law, start, whole};
use cart_data::{Cart, Split};
use f8_spec::Memory;
use memory_map::Map;
use std::alloc::Global;
use std::collections::BTreeMap;

/// What is found of an invariant map of a cartridge (this project's own).
#[derive(Clone, Copy, Debug, PartialEq, Eq)]
pub enum VerifyAnswer {
    /// The map is closed, safe and free of faults: every bus step of every run is served.
    Whole,

    /// It is closed and safe, but by some state of it a read at the data counter may find no chip that answers.
    Agreed,

    /// The map doesn't cover what holds at the point `to`: at the start, or behind the state at the point `from`.
    NotClosed { from: Option<Point>, to: Point },

    /// The state at a point isn't safe, for this reason.
    Unsafe { point: Point, reason: Reason },
}

/// The map has a state at the point that says no more.
fn covers(notes: &BTreeMap<Point, Abs>, point: &Point, state: &Abs) -> bool
    ensures { result ≡ spelled_cover point_cmp is_state_below (states_of notes.now.entries)
        point.now (state_of state.now) }
{
    match notes.get(point) {
        Some(upper) => state.below(upper),
        None => false,
    }
}

/// The map covers the start.
fn covers_start(notes: &BTreeMap<Point, Abs>, split: &Split) -> bool
    ensures { result ≡ spelled_cover point_cmp is_state_below (states_of notes.now.entries)
        start_point start_state }
{
    let (point, state) = start(split);
    covers(notes, &point, &state)
}

/// The point of the first state that isn't covered.
fn first_open(notes: &BTreeMap<Point, Abs>, ways: &Successors) -> Option<Point>
    ensures { result ≡ spelled_open point_cmp is_state_below (states_of notes.now.entries)
        (map entry_of ways.now) }
{
    for place in 0..ways.len() {
        if let Some((point, state)) = ways.get(place) {
            if !covers(notes, &point, &state) {
                return Some(point);
            }
        }
    }
    None
}

/// The failure at a point: its state isn't safe, or else it leads to one that isn't covered.
fn failure_at(
    notes: &BTreeMap<Point, Abs>,
    point: &Point,
    state: &Abs,
    split: &Split,
    map: &Map,
) -> Option<VerifyAnswer>
    requires { HasTrackedBytes split.now (invariant_at point.now state.now) }
    ensures { result ≡ spelled_failure (analysis (view_of map.now) split.now)
        (states_of notes.now.entries) (point.now, state_of state.now) }
{
    match after(state, point, split, map) {
        Ok(ways) => {
            let to = first_open(notes, &ways)?;
            Some(VerifyAnswer::NotClosed {
                from: Some(*point),
                to,
            })
        },
        Err(reason) => Some(VerifyAnswer::Unsafe {
            point: *point,
            reason,
        }),
    }
}

/// The first failure at the points, in their order.
fn first_failure(notes: &BTreeMap<Point, Abs>, split: &Split, map: &Map) -> Option<VerifyAnswer>
    requires { HaveSplit split.now (states_of notes.now.entries) }
    ensures first { result ≡ spelled_first (analysis (view_of map.now) split.now)
        (states_of notes.now.entries) (states_of notes.now.entries) }
    ensures ranges { result ≡ None → AllInRange (states_of notes.now.entries) }
{
    for (point, state) in notes {
        entry_law(point, state);
        let failure = failure_at(notes, point, state, split, map);
        if failure.is_some() {
            return failure;
        }
    }
    None
}

/// Each state is free of faults at its point.
fn is_fault_free(notes: &BTreeMap<Point, Abs>, map: &Map) -> bool
    ensures { result ≡ list_all (λ e. spelled_freedom (view_of map.now) (invariant_of e))
        notes.now.entries }
{
    notes.iter().all(|(point, state)| whole(state, point, map))
}

/// What is found of a map, by what is told of the chips.
fn examined(notes: &BTreeMap<Point, Abs>, split: &Split, map: &Map) -> VerifyAnswer
    requires { HaveSplit split.now (states_of notes.now.entries) }
    ensures answer { result ≡ spelled_answer (analysis (view_of map.now) split.now)
        (states_of notes.now.entries) }
    ensures whole { result ≡ Whole → AllInRange (states_of notes.now.entries) }
    ensures agreed { result ≡ Agreed → AllInRange (states_of notes.now.entries) }
{
    if !covers_start(notes, split) {
        return VerifyAnswer::NotClosed {
            from: None,
            to: start(split).0,
        };
    }
    if let Some(failure) = first_failure(notes, split, map) {
        return failure;
    }
    if is_fault_free(notes, map) {
        VerifyAnswer::Whole
    } else {
        VerifyAnswer::Agreed
    }
}

/// What is found of an invariant map of a cartridge, whoever made it (this project's own): whether it is closed and safe, and free of faults
/// besides; or the first failure, which is that of the start or else that of the first point, and there a state that isn't safe before what
/// holds next, in its order. Of the checker nothing is needed. The points have the bytes that their states know of the tracked registers, as
/// `read_cert` and `check_cart` give them. Where the map is whole every bus access of every run is served, and where it is agreed every one
/// is but for reads that no chip answers at D0, whatever the chips hold at power-on and whatever comes by the keys and from outside.
///
/// # Errors
///
/// Memory is missing for what is told of the chips: 65,536 bytes, and their vectors. No more is taken.
pub fn verify(alloc: Global, cart: &Cart, notes: &Annotation) -> Result<VerifyAnswer, Memory>
    requires { HaveSplit cart.now.split notes.now }
    ensures answer { IfOk result (λ answer. answer
        ≡ spelled_answer (analysis (chips_view cart.now.chips) cart.now.split) notes.now) }
    ensures whole { let an = analysis (chips_view cart.now.chips) cart.now.split in
        IfOk result (λ answer. (answer ≡ Whole)
        ↔ (IsSafelyClosed an notes.now × HoldsFaultFreeStates an notes.now)) }
    ensures agreed { let an = analysis (chips_view cart.now.chips) cart.now.split in
        IfOk result (λ answer. (answer ≡ Agreed)
        ↔ (IsSafelyClosed an notes.now × (HoldsFaultFreeStates an notes.now → ⊥))) }
    ensures served { IfOk result (λ answer. answer ≡ Whole
        → GoesOnAlways (λ here fault. fault ≡ None) cart.now.chips) }
    ensures undriven { IfOk result (λ answer. answer ≡ Agreed
        → GoesOnAlways (λ here fault. OnlyUndriven here.flat.state.flow.d0 fault) cart.now.chips) }
{
    map_view_law();
    analysis_law();
    let map = Map::of(alloc, &cart.chips)?;
    // That points ascend, and that there aren't too many, is known by the count.
    let _count = notes.len();
    Ok(examined(notes.as_map(), &cart.split, &map))
}
