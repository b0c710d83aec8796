//! The bus steps of an instruction.
ghost use Rattle.std.specs.Prelude.{◌≡◌, ◌<◌, ◌≤◌, [], length, map, IfOk, IfSome, OnErr, IsSome, Some, false};
ghost use Rattle.f8_spec.specs.Instructions.{decoded, is_shielding};
ghost use Rattle.f8_spec.specs.declared.instructions.Op.{Op};
ghost use Rattle.console_spec.specs.Run.{Position};
ghost use Rattle.cpu3850.specs.CpuSteps.{planned, taken};
ghost use Rattle.cpu3850.specs.Keeping.{IsRestorable};
ghost use Rattle.data_bus.specs.PageIndex.{StandsFor};
ghost use Rattle.f8_machine.specs.Carrying.{HoldsInstruction, IsCarriedOut, IsCutShort, vectored};
ghost use Rattle.f8_machine.specs.MachineState.{probe_after_steps};
ghost use Rattle.f8_machine.specs.Questions.{Counts, CountsTried};
ghost use Rattle.f8_machine.specs.Rounds.{RackRuns};

use super::bus::Bus;
use super::bus_step::bus_step;
use super::chain::Chain;
use super::choose::choose;
use super::interrupt::{acknowledge_chosen, fetch_by};
use super::record::Record;
use super::unserved::{NotServed, Unserved};
use chip_face::{Chip, MOST_CHIPS};
use cpu3850::{Cpu, Steps};
use data_bus::Rack;

/// What the processor does with the opcode that is fetched at the end, and with the interrupt that is taken there.
fn conclude(cpu: &mut Cpu, index: u8, opcode: u8, chosen: Option<u8>)
    requires { index < length (planned cpu.old) }
    ensures { cpu.new ≡ vectored chosen (taken index opcode cpu.old) }
{
    cpu.take(index, opcode);
    if chosen.is_some() {
        cpu.vectored();
    }
}

/// The bus steps of the instruction that the processor holds, each told in `steps`. Requests for an interrupt are sampled as its last
/// step begins; the answer is the socket of the chip whose interrupt is taken in place of it. Where a step isn't served `unserved`
/// tells it, and the processor differs from what it was in nothing but what can be put back.
pub(crate) fn carry_out(
    cpu: &mut Cpu,
    bus: &mut Bus,
    rack: &mut Rack,
    plan: &Steps,
    chain: &Chain,
    steps: &mut Record,
    unserved: &mut Unserved,
) -> Result<Option<u8>, NotServed>
    requires few { length rack.old.items ≤ MOST_CHIPS }
    requires plan { plan.now ≡ planned cpu.old }
    requires instruction { IsSome (decoded cpu.old.opcode) }
    requires none { steps.old ≡ [] }
    requires stands { StandsFor bus.old.index bus.old.probe (map state rack.old.items) }
    ensures done { (op : Op) (x : Position) →
        HoldsInstruction cpu.old bus.old.probe (map state rack.old.items) chain.now op x →
        IfOk result (λ chosen. IsCarriedOut cpu.old cpu.new bus.new.probe
        (map state rack.new.items) steps.new chosen op x) }
    ensures cut { (op : Op) (x : Position) →
        HoldsInstruction cpu.old bus.old.probe (map state rack.old.items) chain.now op x →
        OnErr result (IsCutShort steps.new unserved.new.fault unserved.new.long op x) }
    ensures open { (op : Op) → decoded cpu.old.opcode ≡ Some op →
        IfOk result (λ chosen. IfSome chosen (λ socket. is_shielding op ≡ false)) }
    ensures restorable { OnErr result (IsRestorable cpu.old cpu.new) }
    ensures ran { RackRuns steps.new (map state rack.old.items) (map state rack.new.items) }
    ensures reference { bus.new.probe ≡ probe_after_steps steps.new bus.old.probe }
    ensures stands { StandsFor bus.new.index bus.new.probe (map state rack.new.items) }
    ensures counted { IfOk result (λ chosen. Counts queries rack.old.items rack.new.items
        bus.old bus.new steps.old steps.new) }
    ensures tried { OnErr result (CountsTried unserved.new.fault queries
        rack.old.items rack.new.items bus.old bus.new steps.old steps.new) }
    ensures chips { length rack.new.items ≡ length rack.old.items }
{
    let before = plan.before_last();
    for (index, step) in before.iter().enumerate() {
        let placed = cpu.drive(index as u8);
        let byte = bus_step(rack, bus, *step, placed, steps, unserved)?;
        cpu.take(index as u8, byte);
    }
    let Some(last) = plan.last() else {
        unreachable!()
    };
    let chosen = choose(cpu, rack, chain);
    acknowledge_chosen(rack, bus, chosen, steps);
    let fetch = fetch_by(chosen, last);
    let opcode = bus_step(rack, bus, fetch, 0, steps, unserved)?;
    conclude(cpu, (plan.len() - 1) as u8, opcode, chosen);
    Ok(chosen)
}
