// The work of a search: what is found so far, and what is due.
use super::halt::Halt;
use abs_domain::{Abs, Point};
use abs_step::MOST_POINTS;
use std::alloc::AllocError;
use std::collections::btree_map::Entry;
use std::collections::{BTreeMap, BTreeSet};

/// The states that are found so far, by their points, and the points that are due, which are to be looked at again.
#[derive(Drop)]
pub(crate) struct Worklist {
    pub(crate) notes: BTreeMap<Point, Abs>,
    pub(crate) due: BTreeSet<Point>,
}

impl Worklist {
    ghost use Rattle.std.specs.Prelude.{◌≡◌, ◌≤◌, OnOk, IfErr, length};
    ghost use Rattle.abs_domain.specs.StateView.{state_of};
    ghost use Rattle.abs_domain.specs.PointOrder.{point_cmp};
    ghost use Rattle.abs_domain.specs.Joins.{is_state_below, joined_state};
    ghost use Rattle.abs_domain.specs.declared.points.Point.{Point};
    ghost use Rattle.cart_checker.specs.Worklists.{Added};
    ghost use Rattle.cart_checker.specs.WorkView.{work_of, AddHalts, IsMadeDue};

    /// Adds a state at a point: it is written where none is, and where the one that is there doesn't cover it, their join is.
    pub(crate) fn add(&mut self, point: &Point, state: &Abs) -> Result<(), Halt>
        requires few { length (work_of self.old).notes ≤ 65536 }
        ensures added { OnOk result (Added point_cmp is_state_below joined_state (work_of self.old)
            (work_of self.new) point.now (state_of state.now)) }
        ensures few { OnOk result (length (work_of self.new).notes ≤ 65536) }
        ensures halt { IfErr result (AddHalts (work_of self.old) point.now) }
    {
        let is_full = self.notes.len() >= MOST_POINTS;
        match self.notes.entry(*point) {
            Ok(Entry::Occupied(mut entry)) => {
                let old = entry.get();
                if state.below(old) {
                    return Ok(());
                }
                let raised = old.join(state);
                entry.insert(raised);
                self.make_due(*point)?;
                Ok(())
            },
            Ok(Entry::Vacant(entry)) => {
                if is_full {
                    return Err(Halt::TooMany);
                }
                entry.insert(*state);
                self.make_due(*point)?;
                Ok(())
            },
            Err(_) => Err(if is_full { Halt::TooMany } else { Halt::Memory }),
        }
    }

    /// Makes a point due.
    fn make_due(&mut self, point: Point) -> Result<(), AllocError>
        ensures due { OnOk result (IsMadeDue self.old.due.keys self.new.due.keys point) }
        ensures notes { OnOk result (self.new.notes ≡ self.old.notes) }
    {
        self.due.insert(point)?;
        Ok(())
    }
}
