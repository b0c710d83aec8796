// The search of what is known at each point, from the start on until nothing is due.
ghost use Rattle.std.specs.Prelude.{IfOk, IfErr};
ghost use Rattle.abs_step.specs.Analysis.{AnalysisLaws};
ghost use Rattle.abs_step.specs.ReachedStates.{IsLeastMap};
ghost use Rattle.cart_checker.specs.WorkView.{map_analysis, Shows};

use super::halt::Halt;
use super::worklist::Worklist;
use abs_domain::{Abs, Point};
use abs_step::{Annotation, after, start};
use cart_data::Split;
use memory_map::Map;
use std::alloc::Global;
use std::collections::{BTreeMap, BTreeSet};

impl Worklist {
    ghost use Rattle.std.specs.Prelude.{◌≡◌, ◌<◌, ◌≤◌, [], OnOk, IfOk, IfErr};
    ghost use Rattle.std.specs.Bool.{OnTrue, OnFalse};
    ghost use Rattle.abs_domain.specs.StateView.{state_of};
    ghost use Rattle.abs_step.specs.Analysis.{AnalysisLaws};
    ghost use Rattle.abs_step.specs.ReachedStates.{Reached, IsLeastMap};
    ghost use Rattle.cart_checker.specs.Worklists.{Holds, Nothing, Only, effort};
    ghost use Rattle.cart_checker.specs.WorkView.{work_of, map_analysis, Shows};

    /// The start alone is found, and due.
    fn at_start(alloc: Global, split: &Split, map: &Map) -> Result<Worklist, Halt>
        requires laws { AnalysisLaws (map_analysis map.now split.now) }
        ensures holds { let an = map_analysis map.now split.now in
            IfOk result (λ work. Holds an (work_of work) (Nothing an)) }
        ensures halt { IfErr result (Shows (map_analysis map.now split.now)) }
    {
        let mut work = Worklist {
            notes: BTreeMap::new(alloc),
            due: BTreeSet::new(alloc),
        };
        let (point, state) = start(split);
        work.add(&point, &state)?;
        Ok(work)
    }

    /// Adds all that holds next after a state, unless it isn't safe at its point.
    fn settle(&mut self, split: &Split, map: &Map, point: Point, state: Abs) -> Result<(), Halt>
        requires laws { AnalysisLaws (map_analysis map.now split.now) }
        requires holds { let an = map_analysis map.now split.now in
            Holds an (work_of self.old) (Only an point (state_of state)) }
        requires reached { Reached (map_analysis map.now split.now) point (state_of state) }
        ensures holds { let an = map_analysis map.now split.now in
            OnOk result (Holds an (work_of self.new) (Nothing an)) }
        ensures falls { let an = map_analysis map.now split.now in
            OnOk result (effort an (work_of self.new) ≤ effort an (work_of self.old)) }
        ensures halt { IfErr result (Shows (map_analysis map.now split.now)) }
    {
        match after(&state, &point, split, map) {
            Ok(ways) => {
                for place in 0..ways.len() {
                    if let Some((point, state)) = ways.get(place) {
                        self.add(&point, &state)?;
                    }
                }
                Ok(())
            },
            Err(reason) => Err(Halt::Refused(point, state, reason)),
        }
    }

    /// Looks at the first point that is due. Says whether there was one.
    fn step(&mut self, split: &Split, map: &Map) -> Result<bool, Halt>
        requires laws { AnalysisLaws (map_analysis map.now split.now) }
        requires holds { let an = map_analysis map.now split.now in
            Holds an (work_of self.old) (Nothing an) }
        ensures holds { let an = map_analysis map.now split.now in
            OnOk result (Holds an (work_of self.new) (Nothing an)) }
        ensures end { IfOk result (λ more. OnFalse more ((work_of self.new).due ≡ [])) }
        ensures falls { let an = map_analysis map.now split.now in
            IfOk result (λ more.
            OnTrue more (effort an (work_of self.new) < effort an (work_of self.old))) }
        ensures halt { IfErr result (Shows (map_analysis map.now split.now)) }
    {
        let Some(point) = self.due.pop_first() else {
            return Ok(false);
        };
        if let Some(state) = self.notes.get(&point) {
            let state = *state;
            self.settle(split, map, point, state)?;
        }
        Ok(true)
    }

    /// Looks at all points that are due, until none is.
    fn run(&mut self, split: &Split, map: &Map) -> Result<(), Halt>
        requires laws { AnalysisLaws (map_analysis map.now split.now) }
        requires holds { let an = map_analysis map.now split.now in
            Holds an (work_of self.old) (Nothing an) }
        ensures least { OnOk result
            (IsLeastMap (map_analysis map.now split.now) (work_of self.new).notes) }
        ensures halt { IfErr result (Shows (map_analysis map.now split.now)) }
    {
        loop {
            if !self.step(split, map)? {
                return Ok(());
            }
        }
    }
}

/// The least map that is closed and safe, or what shows that there is none.
pub(crate) fn search(alloc: Global, split: &Split, map: &Map) -> Result<Annotation, Halt>
    requires laws { AnalysisLaws (map_analysis map.now split.now) }
    ensures least { IfOk result (IsLeastMap (map_analysis map.now split.now)) }
    ensures halt { IfErr result (Shows (map_analysis map.now split.now)) }
{
    let mut work = Worklist::at_start(alloc, split, map)?;
    work.run(split, map)?;
    Ok(Annotation::from_map(work.notes))
}
