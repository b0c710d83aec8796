// What is found of a list of entries of a cartridge.
ghost use Rattle.std.specs.Prelude.{◌≡◌, ◌↔◌, IfOk, None};
ghost use Rattle.abs_step.specs.MapView.{chips_view};
ghost use Rattle.abs_step.specs.Soundness.{OnlyUndriven};
ghost use Rattle.case_step.specs.CaseLists.{HasFaultFreeCases, IsSafelyClosedList, judged};
ghost use Rattle.case_step.specs.declared.answer.CasesAnswer.TheVariants.{Whole, Agreed};
ghost use Rattle.certificate.specs.VerifiedMaps.{GoesOnAlways};

use abs_step::map_view_law;
use cart_data::Cart;
use case_step::{CaseList, CasesAnswer, case_soundness_law, judge, judged_law};
use f8_spec::Memory;
use memory_map::Map;
use std::alloc::Global;

/// What is found of a list of entries of a cartridge, whoever made it (this project's own): whether it is closed, and each case of it is
/// safe, and free of faults besides; or the first failure, which is that of the start or else that of the first entry, there of its first
/// case, and there a case that isn't safe before what it leads to, in its order. Where it is whole every bus access of every run is served,
/// and where it is agreed every one is but for reads that no chip answers at D0, whatever the chips hold at power-on and whatever comes by
/// the keys and from outside. The registers that the cartridge tracks make no difference, and nothing is needed of what made the list.
///
/// # Errors
///
/// Memory is missing for what is told of the chips, 65,536 bytes and their vectors, or for the cases of an entry.
pub fn confirm(alloc: Global, cart: &Cart, list: &CaseList) -> Result<CasesAnswer, Memory>
    ensures answer { IfOk result (λ answer. answer ≡ judged (chips_view cart.now.chips) list.now) }
    ensures whole { let m = chips_view cart.now.chips in
        IfOk result (λ answer. (answer ≡ Whole)
        ↔ (IsSafelyClosedList m list.now × HasFaultFreeCases m list.now)) }
    ensures agreed { let m = chips_view cart.now.chips in
        IfOk result (λ answer. (answer ≡ Agreed)
        ↔ (IsSafelyClosedList m list.now × (HasFaultFreeCases m list.now → ⊥))) }
    ensures served { IfOk result (λ answer. answer ≡ Whole
        → GoesOnAlways (λ here fault. fault ≡ None) cart.now.chips) }
    ensures undriven { IfOk result (λ answer. answer ≡ Agreed
        → GoesOnAlways (λ here fault. OnlyUndriven here.flat.state.flow.d0 fault) cart.now.chips) }
{
    map_view_law();
    case_soundness_law();
    judged_law();
    let map = Map::of(alloc, &cart.chips)?;
    judge(alloc, list, &map)
}
