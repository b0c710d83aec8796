// An annotation: what is known at each point, as a search finds it and a certificate holds it.
use abs_domain::{Abs, Point};
use std::collections::BTreeMap;
use std::marker::Model;

/// The most points of an annotation.
pub const MOST_POINTS: usize = 65_536;

/// States at points, in the order of points, each point once (this project's own). Contracts see the list of the points with what is known
/// there.
#[derive(Debug, Drop)]
pub struct Annotation {
    notes: BTreeMap<Point, Abs>,
}

impl Model for Annotation {
    ghost use Rattle.std.specs.Prelude.{List, ◌≤◌, length};
    ghost use Rattle.std.specs.List.Sorted.{IsStrictlySortedBy};
    ghost use Rattle.std.specs.Map.{keys_of};
    ghost use Rattle.abs_domain.specs.AbstractState.{AbstractState};
    ghost use Rattle.abs_domain.specs.PointOrder.{point_cmp};
    ghost use Rattle.abs_domain.specs.declared.points.Point.{Point};
    ghost use Rattle.abs_step.specs.StatesAtPoints.{states_of};

    ghost Value = { List (Point × AbstractState) };

    ghost view = { λ a. states_of a.notes.entries };

    ghost invariant = { λ a. IsStrictlySortedBy point_cmp (keys_of (states_of a.notes.entries))
        × (length (states_of a.notes.entries) ≤ 65536) };
}

impl Annotation {
    ghost use Rattle.std.specs.Prelude.{◌≡◌, ◌≤◌, length};
    ghost use Rattle.std.specs.List.Sorted.{IsStrictlySortedBy};
    ghost use Rattle.std.specs.Map.{keys_of};
    ghost use Rattle.abs_domain.specs.PointOrder.{point_cmp};
    ghost use Rattle.abs_step.specs.StatesAtPoints.{states_of};

    /// The states of a map.
    pub fn from_map(notes: BTreeMap<Point, Abs>) -> Annotation
        requires few { length notes.entries ≤ MOST_POINTS }
        ensures { result ≡ states_of notes.entries }
    {
        // That the points of a map ascend is known by its length.
        let _count = notes.len();
        Annotation { notes }
    }

    /// The states, by their points.
    pub fn as_map(&self) -> &BTreeMap<Point, Abs>
        ensures { states_of result.now.entries ≡ self.now }
    {
        &self.notes
    }

    /// How many points there are.
    pub fn len(&self) -> usize
        ensures count { result ≡ length self.now }
        ensures few { result ≤ MOST_POINTS }
        ensures ascends { IsStrictlySortedBy point_cmp (keys_of self.now) }
    {
        self.notes.len()
    }
}
