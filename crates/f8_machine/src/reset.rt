//! The bus steps of reset.
ghost use Rattle.std.specs.Prelude.{◌≡◌, ◌<◌, ◌≤◌, ◌+◌, [], length, map, IfOk, OnErr, OnOk};
ghost use Rattle.console_spec.specs.Run.{Position};
ghost use Rattle.data_bus.specs.PageIndex.{StandsFor};
ghost use Rattle.f8_machine.specs.BusSteps.{IsPlain, IsServed, IsRefused};
ghost use Rattle.f8_machine.specs.MachineState.{probe_after_steps};
ghost use Rattle.f8_machine.specs.Questions.{Counts, CountsTried};
ghost use Rattle.f8_machine.specs.Resetting.{IsAtPower, IsFetched, IsNotFetched};
ghost use Rattle.f8_machine.specs.Rounds.{RackRuns};

use super::bus::Bus;
use super::bus_step::bus_step;
use super::record::{MOST_HEARD, Record};
use super::unserved::{NotServed, Unserved};
use chip_face::{Chip, MOST_CHIPS};
use cpu3850::{Romc, Step};
use data_bus::Rack;
use romc_table::Driver;

/// The steps of reset: the CPU works by itself, the program counters go to 0, and the opcode there is fetched.
const IDLE: Step = Step {
    romc: Romc::IDLE,
    long: false,
    driver: Driver::Nobody,
};

const TO_ZERO: Step = Step {
    romc: Romc::RESET,
    long: true,
    driver: Driver::Cpu,
};

const FETCH: Step = Step {
    romc: Romc::FETCH,
    long: false,
    driver: Driver::Memory,
};

/// A bus step in which the CPU places 00.
fn quiet_step(
    rack: &mut Rack,
    bus: &mut Bus,
    step: Step,
    steps: &mut Record,
    unserved: &mut Unserved,
) -> Result<u8, NotServed>
    requires few { length rack.old.items ≤ MOST_CHIPS }
    requires room { length steps.old < MOST_HEARD }
    requires plain { IsPlain step.romc }
    requires stands { StandsFor bus.old.index bus.old.probe (map state rack.old.items) }
    ensures served { IfOk result (λ byte. IsServed step 0 bus.old.probe bus.new.probe
        (map state rack.old.items) (map state rack.new.items) steps.old steps.new byte) }
    ensures longer { OnOk result (length steps.new ≡ length steps.old + 1) }
    ensures refused { OnErr result (IsRefused step unserved.new.fault
        bus.old.probe bus.new.probe (map state rack.old.items) (map state rack.new.items)
        steps.old steps.new) }
    ensures long { OnErr result (unserved.new.long ≡ step.long) }
    ensures stands { StandsFor bus.new.index bus.new.probe (map state rack.new.items) }
    ensures counted { IfOk result (λ byte. Counts queries rack.old.items rack.new.items
        bus.old bus.new steps.old steps.new) }
    ensures tried { OnErr result (CountsTried unserved.new.fault queries
        rack.old.items rack.new.items bus.old bus.new steps.old steps.new) }
    ensures chips { length rack.new.items ≡ length rack.old.items }
{
    bus_step(rack, bus, step, 0, steps, unserved)
}

/// The bus steps of reset, each told in `steps`. It answers the opcode at 0; where a step isn't served `unserved` tells it.
pub(crate) fn fetch_first(
    rack: &mut Rack,
    bus: &mut Bus,
    steps: &mut Record,
    unserved: &mut Unserved,
) -> Result<u8, NotServed>
    requires few { length rack.old.items ≤ MOST_CHIPS }
    requires none { steps.old ≡ [] }
    requires stands { StandsFor bus.old.index bus.old.probe (map state rack.old.items) }
    ensures fetched { (x : Position) → IsAtPower bus.old.probe (map state rack.old.items) x →
        IfOk result (λ opcode. IsFetched opcode bus.new.probe
        (map state rack.new.items) steps.new x) }
    ensures cut { (x : Position) → IsAtPower bus.old.probe (map state rack.old.items) x →
        OnErr result (IsNotFetched steps.new unserved.new.fault unserved.new.long x) }
    ensures ran { RackRuns steps.new (map state rack.old.items) (map state rack.new.items) }
    ensures reference { bus.new.probe ≡ probe_after_steps steps.new bus.old.probe }
    ensures stands { StandsFor bus.new.index bus.new.probe (map state rack.new.items) }
    ensures counted { IfOk result (λ opcode. Counts queries rack.old.items rack.new.items
        bus.old bus.new steps.old steps.new) }
    ensures tried { OnErr result (CountsTried unserved.new.fault queries
        rack.old.items rack.new.items bus.old bus.new steps.old steps.new) }
    ensures chips { length rack.new.items ≡ length rack.old.items }
{
    quiet_step(rack, bus, IDLE, steps, unserved)?;
    quiet_step(rack, bus, TO_ZERO, steps, unserved)?;
    quiet_step(rack, bus, FETCH, steps, unserved)
}
