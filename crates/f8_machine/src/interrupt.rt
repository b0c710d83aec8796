//! The bus steps of an interrupt (Fairchild F8 User's Guide; the list is this project's own).
ghost use Rattle.std.specs.Prelude.{◌≡◌, ◌<◌, ◌≤◌, ◌+◌, ◌-◌, false, Some, length, map, IfSome};
ghost use Rattle.f8_spec.specs.BusArbitration.{rule_of};
ghost use Rattle.console_spec.specs.BusTrace.{is_access};
ghost use Rattle.data_bus.specs.PageIndex.{StandsFor};
ghost use Rattle.data_bus.specs.Racks.{ChosenAsks, NamesAsking};
ghost use Rattle.f8_machine.specs.BusSteps.{IsServedBy};
ghost use Rattle.f8_machine.specs.Questions.{Counts};
ghost use Rattle.f8_machine.specs.Vectoring.{Acknowledges, IsAcknowledged, clocks_of_plan, fetch_by};

use super::bus::Bus;
use super::bus_step::bus_step_by;
use super::record::{MOST_HEARD, Record};
use super::unserved::{NotServed, Unserved};
use chip_face::{Chip, MOST_CHIPS};
use cpu3850::{Romc, Step, Steps};
use data_bus::Rack;
use f8_ops::INTERRUPT_PHI;
use romc_table::Driver;

/// The CPU frees the bus.
const FREE: Step = Step {
    romc: Romc::ACKNOWLEDGE,
    long: true,
    driver: Driver::Nobody,
};

/// It works by itself.
const IDLE: Step = Step {
    romc: Romc::IDLE,
    long: false,
    driver: Driver::Nobody,
};

/// The chip gives the low byte of its vector, and then the high one, with which its request ends.
const LOW: Step = Step {
    romc: Romc::VECTOR_LOW,
    long: true,
    driver: Driver::Vector,
};

const HIGH: Step = Step {
    romc: Romc::VECTOR_HIGH,
    long: true,
    driver: Driver::Vector,
};

/// The opcode at the vector is fetched, by a short step after every instruction.
const FETCH: Step = Step {
    romc: Romc::FETCH,
    long: false,
    driver: Driver::Memory,
};

/// A bus step that no chip has to serve, so that it always is.
#[tactic(auto, using(crate::proofs::VectorSteps::sure_served))]
#[inline(never)]
fn sure_step(
    rack: &mut Rack,
    bus: &mut Bus,
    step: Step,
    first: Option<u8>,
    steps: &mut Record,
) -> u8
    requires few { length rack.old.items ≤ MOST_CHIPS }
    requires room { length steps.old < MOST_HEARD }
    requires chosen { ChosenAsks step.romc first (map state rack.old.items) }
    requires sure { is_access (rule_of step.romc) ≡ false }
    requires stands { StandsFor bus.old.index bus.old.probe (map state rack.old.items) }
    ensures served { IsServedBy first step 0 bus.old.probe bus.new.probe
        (map state rack.old.items) (map state rack.new.items) steps.old steps.new result }
    ensures longer { length steps.new ≡ length steps.old + 1 }
    ensures stands { StandsFor bus.new.index bus.new.probe (map state rack.new.items) }
    ensures counted { Counts queries rack.old.items rack.new.items
        bus.old bus.new steps.old steps.new }
    ensures chips { length rack.new.items ≡ length rack.old.items }
{
    let mut unserved = Unserved::place();
    match bus_step_by(rack, bus, step, 0, first, steps, &mut unserved) {
        Ok(byte) => byte,
        Err(NotServed) => unreachable!(),
    }
}

/// The acknowledgement of the interrupt of the chip in a socket, which asks.
// Not inlined, since nearly no end of an instruction comes here.
#[inline(never)]
fn acknowledge(rack: &mut Rack, bus: &mut Bus, socket: u8, steps: &mut Record)
    requires few { length rack.old.items ≤ MOST_CHIPS }
    requires room { length steps.old + 4 < MOST_HEARD }
    requires asks { NamesAsking (Some socket) (map state rack.old.items) }
    requires stands { StandsFor bus.old.index bus.old.probe (map state rack.old.items) }
    ensures acknowledged { IsAcknowledged socket bus.old.probe bus.new.probe
        (map state rack.old.items) (map state rack.new.items) steps.old steps.new }
    ensures longer { length steps.new ≡ length steps.old + 4 }
    ensures stands { StandsFor bus.new.index bus.new.probe (map state rack.new.items) }
    ensures counted { Counts queries rack.old.items rack.new.items
        bus.old bus.new steps.old steps.new }
    ensures chips { length rack.new.items ≡ length rack.old.items }
{
    sure_step(rack, bus, FREE, None, steps);
    sure_step(rack, bus, IDLE, None, steps);
    sure_step(rack, bus, LOW, Some(socket), steps);
    sure_step(rack, bus, HIGH, Some(socket), steps);
}

/// The steps before the fetch of the next opcode where the interrupt of the chip in a socket is taken, and none where none is.
pub(crate) fn acknowledge_chosen(
    rack: &mut Rack,
    bus: &mut Bus,
    chosen: Option<u8>,
    steps: &mut Record,
)
    requires few { length rack.old.items ≤ MOST_CHIPS }
    requires room { length steps.old + 4 < MOST_HEARD }
    requires asks { IfSome chosen (λ socket. NamesAsking (Some socket) (map state rack.old.items)) }
    requires stands { StandsFor bus.old.index bus.old.probe (map state rack.old.items) }
    ensures acknowledged { Acknowledges chosen bus.old.probe bus.new.probe
        (map state rack.old.items) (map state rack.new.items) steps.old steps.new }
    ensures room { length steps.new < MOST_HEARD }
    ensures stands { StandsFor bus.new.index bus.new.probe (map state rack.new.items) }
    ensures counted { Counts queries rack.old.items rack.new.items
        bus.old bus.new steps.old steps.new }
    ensures chips { length rack.new.items ≡ length rack.old.items }
{
    if let Some(socket) = chosen {
        acknowledge(rack, bus, socket, steps);
    }
}

/// The clocks of an instruction with these steps and an interrupt at its end, or none, in Φ.
pub(crate) fn clocks_of_plan(chosen: Option<u8>, plan: &Steps) -> u64
    ensures { result ≡ clocks_of_plan chosen plan.now }
{
    if chosen.is_some() {
        u64::from(plan.clocks_before_fetch()) + INTERRUPT_PHI
    } else {
        u64::from(plan.clocks())
    }
}

/// The fetch of the next opcode: the last step of the instruction, or where an interrupt is taken a short one.
pub(crate) fn fetch_by(chosen: Option<u8>, last: Step) -> Step
    ensures { result ≡ fetch_by chosen last }
{
    if chosen.is_some() { FETCH } else { last }
}
