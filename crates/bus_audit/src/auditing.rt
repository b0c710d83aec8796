// The audit of a trace.
ghost use Rattle.std.specs.Prelude.{◌≡◌, ◌≤◌, ◌↔◌, ℕ, length, map, sum_by};
ghost use Rattle.f8_spec.specs.BusArbitration.{seat_of};
ghost use Rattle.cpu3850.specs.OwnWrites.{LeaveOwnPorts};
ghost use Rattle.data_bus.specs.Racks.{views};
ghost use Rattle.f8_machine.specs.Refinement.{AreWhole};
ghost use Rattle.pad_script.specs.Reading.{seen};
ghost use Rattle.bus_audit.specs.Answers.{answer_in, setup_of, steps_of};
ghost use Rattle.bus_audit.specs.Audits.{Audits, beginning};
ghost use Rattle.bus_audit.specs.DictatedRuns.{dictated};
ghost use Rattle.bus_audit.specs.FreeRuns.{IsRecord};
ghost use Rattle.bus_audit.specs.declared.answers.AuditAnswer.TheVariants.{Accept};

use super::answers::{AuditAnswer, answer};
use super::law::determinacy_law;
use super::matching::Turn;
use super::run::{begin, go_on};
use super::trace::TraceList;
use cart_data::Cart;
use chip_face::{Chip, MOST_CHIPS};
use f8_machine::{Chain, Rack};
use pad_script::Script;

/// Whether a trace can come from a cartridge: whether its steps are the whole record of a run on the rack, which is fitted for it, under some
/// key bytes of ports 2 on and some pulses. The power byte and the key bytes of ports 0 and 1 are the script's; nothing else of it counts. A run
/// may be broken off behind reset or any instruction, and else a step that isn't served or a reserved opcode stops it. `chain` has the sockets
/// of the chips described. This takes no memory (this project's own).
pub fn audit(
    cart: &Cart,
    chain: Chain,
    script: &Script,
    trace: &TraceList,
    rack: &mut Rack,
) -> AuditAnswer
    requires few { length rack.old.items ≤ MOST_CHIPS }
    requires whole { AreWhole (map state rack.old.items) }
    requires ports { LeaveOwnPorts (map seat_of (views (map state rack.old.items))) }
    requires steps { length trace.now.told ≤ 2000000 }
    ensures answer { result ≡ answer_in trace.now (dictated
        (setup_of (views (map state rack.old.items)) chain cart.now.powers (seen script.now))
        (steps_of trace.now.told)) }
    ensures accepts { (n : ℕ) → (result ≡ Accept n) ↔ IsRecord
        (setup_of (views (map state rack.old.items)) chain cart.now.powers (seen script.now)) n
        (steps_of trace.now.told) }
    ensures audits { Audits
        (beginning script.now.power chain cart.now.powers (steps_of trace.now.told)
        (map state rack.old.items) (sum_by queries rack.old.items))
        result (map state rack.new.items) (sum_by queries rack.new.items) }
    ensures chips { length rack.new.items ≡ length rack.old.items }
{
    determinacy_law();
    let told = trace.told();
    let (mut machine, turn) = begin(chain, &cart.powers, script, told, rack);
    let mut count = match turn {
        Turn::Onward { told } => told,
        Turn::Over { told } => return answer(trace, 0, told),
    };
    let mut instructions = 0;
    while count < told.len() {
        match go_on(&mut machine, rack, script, &told[count..]) {
            Turn::Onward { told } => count += told,
            Turn::Over { told } => return answer(trace, instructions, count + told),
        }
        instructions += 1;
    }
    answer(trace, instructions, count)
}
