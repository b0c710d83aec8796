// What holds next: up to 66 points with their states, each point once.
ghost use Rattle.std.specs.Prelude.{◌≡◌, slice_get};
ghost use Rattle.abs_domain.specs.StateView.{state_of};
ghost use Rattle.abs_step.specs.StepView.{invariant_of};
ghost use Rattle.abs_step.specs.Vectors.{with_icb};
ghost use Rattle.abs_step.specs.WaysOn.{at_way};

use super::status::ICB;
use super::ways::{MOST_WAYS, Way, Ways};
use abs_domain::{Abs, Bit, MOST_TRACKED, Point};
use std::marker::Model;

/// What holds next: from one to 66 points with their states, each point once. For each way of an instruction, that of a taken branch first,
/// there is its exit, and then two vectors for each chip whose interrupt may be taken there. All points have the same tracked bytes, and
/// all states are one but for the interrupt control bit, so that no state is copied before it is asked for. Contracts see the list.
#[derive(Drop)]
pub struct Successors {
    ways: Ways,
    state: Abs,
    bytes: [Option<u8>; MOST_TRACKED],
}

impl Model for Successors {
    ghost use Rattle.std.specs.Prelude.{List, map};
    ghost use Rattle.abs_domain.specs.StateView.{state_of};
    ghost use Rattle.abs_step.specs.Successors.{Invariant};
    ghost use Rattle.abs_step.specs.WaysOn.{at_way};

    ghost Value = { List Invariant };

    ghost view = { λ s. map (at_way s.bytes (state_of s.state)) s.ways.items };
}

impl Successors {
    ghost use Rattle.std.specs.Prelude.{◌≤◌, ◌==◌, length, map, option_map};
    ghost use Rattle.abs_domain.specs.StateView.{state_of};
    ghost use Rattle.abs_step.specs.StepView.{invariant_of};
    ghost use Rattle.abs_step.specs.WaysOn.{at_way};

    /// What holds along some ways, by what is known of all, and of the tracked registers.
    #[inline]
    pub(crate) fn along(ways: Ways, state: Abs, bytes: [Option<u8>; MOST_TRACKED]) -> Successors
        ensures { result ≡ map (at_way bytes (state_of state)) ways.items }
    {
        Successors { ways, state, bytes }
    }

    /// How many there are.
    #[inline]
    pub fn len(&self) -> usize
        ensures count { result ≡ length self.now }
        ensures most { result ≤ MOST_WAYS }
    {
        self.ways.len()
    }

    /// There is none.
    #[inline]
    pub fn is_empty(&self) -> bool
        ensures { result ≡ (length self.now == 0) }
    {
        self.ways.is_empty()
    }

    /// The point at a place with its state, and `None` past the last.
    #[inline]
    pub fn get(&self, place: usize) -> Option<(Point, Abs)>
        ensures { option_map invariant_of result ≡ slice_get self.now place }
    {
        let way = self.ways.as_slice().get(place)?;
        Some(at_way(self.bytes, self.state, *way))
    }
}

/// What holds along a way.
#[inline]
fn at_way(bytes: [Option<u8>; MOST_TRACKED], state: Abs, way: Way) -> (Point, Abs)
    ensures { invariant_of result ≡ at_way bytes (state_of state) way }
{
    let point = Point {
        at: way.exit.at,
        ret: way.exit.ret,
        split: bytes,
    };
    (point, with_icb(state, way.icb))
}

/// A state of which this is known of the interrupt control bit.
#[inline]
fn with_icb(mut state: Abs, icb: Option<bool>) -> Abs
    ensures { state_of result ≡ with_icb icb (state_of state) }
{
    state.w[ICB] = Bit::from(icb);
    state
}
