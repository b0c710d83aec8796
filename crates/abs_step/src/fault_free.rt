// Whether each read at the data counter is answered.
ghost use Rattle.std.specs.Prelude.{◌≡◌};
ghost use Rattle.abs_step.specs.Safety.{is_answered, is_fault_free};
ghost use Rattle.abs_step.specs.MapView.{view_of};
ghost use Rattle.abs_step.specs.StepView.{invariant_at};

use super::hazards::reads_at_data;
use super::step::instruction_at;
use abs_domain::{Abs, Point};
use chip_face::ChipKind;
use f8_ops::row_of;
use memory_map::Map;

/// Whether a safe state at a point is free of faults besides: where the instruction reads at D0, some chip answers there (this project's
/// own). Any other instruction is free of them, and so is a point where no instruction stands.
#[tactic(auto, unfolding(crate::specs::Safety::is_fault_free))]
pub fn whole(abs: &Abs, point: &Point, map: &Map) -> bool
    ensures { result ≡ is_fault_free (view_of map.now) (invariant_at point.now abs.now) }
{
    match instruction_at(map, point.at) {
        Some(op) => !reads_at_data(row_of(op)) || is_answered(map, abs.d0.known(), abs.p0),
        None => true,
    }
}

/// Some chip answers at D0. The flag says that each 3851's own DC0 is there.
#[tactic(auto, unfolding(crate::specs::MapView::holds_every_address, memory_map::specs::MapOf::mapped_held_everywhere))]
fn is_answered(map: &Map, at: Option<u16>, same: bool) -> bool
    ensures { result ≡ is_answered (view_of map.now) at same }
{
    match at {
        Some(at) => map.held(at, ChipKind::Smi) || (map.held(at, ChipKind::Psu) && same),
        None => map.held_everywhere() && (!map.any(ChipKind::Psu) || same),
    }
}
