// The check of a cartridge.
ghost use Rattle.std.specs.Prelude.{◌≡◌, ◌↔◌, Err, IfOk, IsErr};
ghost use Rattle.std.specs.List.{list_all};
ghost use Rattle.abs_step.specs.MapView.{chips_view, view_of};
ghost use Rattle.abs_step.specs.Safety.{is_fault_free};
ghost use Rattle.abs_step.specs.StepView.{invariant_of};
ghost use Rattle.abs_step.specs.Analysis.{AnalysisLaws};
ghost use Rattle.abs_step.specs.CartridgeAnalysis.{TellsBytes};
ghost use Rattle.cart_checker.specs.Verdicts.{IsVerdict, Carries, IsVerdictIn, CarriesIn};
ghost use Rattle.cart_checker.specs.WorkView.{map_analysis, IsVerdictOn};
ghost use Rattle.cart_checker.specs.declared.halt.Halt.TheVariants.{Memory as WantOfMemory};

use super::halt::Halt;
use super::search::search;
use super::verdict::Verdict;
use abs_domain::{Abs, Point};
use abs_step::{Annotation, analysis_law, map_view_law, whole};
use cart_data::{Cart, Split};
use f8_spec::Memory;
use memory_map::Map;
use std::alloc::Global;
use std::collections::BTreeMap;

/// Checks a cartridge before it runs (this project's own): what is known is found at each point that a run may come to. The verdict is
/// exact, and has with it what shows it: the least map that is closed and safe, or a state that isn't safe but reached, or that states are
/// reached at more points than a map may have. Besides, the bytes that stay in the chips are bytes. The error is want of memory.
pub fn check_cart(alloc: Global, cart: &Cart) -> Result<Verdict, Memory>
    ensures verdict { IfOk result (IsVerdict cart.now) }
    ensures carries { IfOk result (Carries cart.now) }
    ensures bytes { IfOk result (λ _. TellsBytes (chips_view cart.now.chips)) }
{
    map_view_law();
    analysis_law();
    let map = Map::of(alloc, &cart.chips)?;
    checked(alloc, &cart.split, &map)
}

/// The verdict by what a map tells of the chips.
fn checked(alloc: Global, split: &Split, map: &Map) -> Result<Verdict, Memory>
    requires laws { AnalysisLaws (map_analysis map.now split.now) }
    ensures verdict { IfOk result (IsVerdictIn (map_analysis map.now split.now)) }
    ensures carries { IfOk result (CarriesIn (map_analysis map.now split.now)) }
{
    verdict_on(search(alloc, split, map), map)
}

/// The verdict on what a search found. Want of memory has none, and nothing else is told as that.
fn verdict_on(found: Result<Annotation, Halt>, map: &Map) -> Result<Verdict, Memory>
    ensures memory { IsErr result ↔ (found ≡ Err WantOfMemory) }
    ensures verdict { IfOk result (IsVerdictOn (view_of map.now) found) }
{
    match found {
        Ok(notes) => {
            if are_fault_free(notes.as_map(), map) {
                Ok(Verdict::Whole(notes))
            } else {
                Ok(Verdict::Agreed(notes))
            }
        },
        Err(Halt::Refused(point, state, reason)) => Ok(Verdict::Refused {
            point,
            state,
            reason,
        }),
        Err(Halt::TooMany) => Ok(Verdict::TooMany),
        Err(Halt::Memory) => Err(Memory),
    }
}

/// Each state is free of faults at its point.
fn are_fault_free(notes: &BTreeMap<Point, Abs>, map: &Map) -> bool
    ensures { result ≡ list_all (λ e. is_fault_free (view_of map.now) (invariant_of e))
        notes.now.entries }
{
    notes.iter().all(|(point, state)| whole(state, point, map))
}
