//! One bus step of a machine.
ghost use Rattle.std.specs.Prelude.{◌≡◌, ◌<◌, ◌≤◌, length, map, sum_by, IfOk, IfSome, OnErr};
ghost use Rattle.data_bus.specs.PageIndex.{StandsFor};
ghost use Rattle.data_bus.specs.Racks.{ChosenAsks};
ghost use Rattle.f8_machine.specs.BusSteps.{IsPlain, IsServed, IsServedBy, IsRefused, IsRefusedBy, heard_served};
ghost use Rattle.f8_machine.specs.Questions.{Counts, CountsTried};

use super::bus::Bus;
use super::heard::{Heard, taker, who_drove};
use super::record::{MOST_HEARD, Record};
use super::unserved::{NotServed, Unserved};
use chip_face::{Chip, MOST_CHIPS};
use cpu3850::Step;
use data_bus::{Cycle, Rack, Served, step_asking, step_by, step_known};

/// A served step, as a trace tells it.
fn heard(step: &Step, served: Served) -> Heard
    ensures { result ≡ heard_served step.now served.byte served.socket }
{
    Heard {
        romc: step.romc,
        long: step.long,
        byte: served.byte,
        who: who_drove(step.driver, served.socket),
        taker: taker(step.romc, served.socket),
    }
}

/// One bus step as [`bus_step`] does it, where the index tells that it is served; else it does nothing. No interrupt is acknowledged in it.
#[tactic(auto, using(crate::proofs::BusAnswers::none_chosen))]
// A function of its own, in which nearly every step of a run ends, and which has no room for a fault with its list of chips.
#[inline(never)]
fn known_step(
    rack: &mut Rack,
    bus: &mut Bus,
    step: &Step,
    placed: u8,
    steps: &mut Record,
) -> Option<u8>
    requires few { length rack.old.items ≤ MOST_CHIPS }
    requires room { length steps.old < MOST_HEARD }
    requires stands { StandsFor bus.old.index bus.old.probe (map state rack.old.items) }
    requires plain { IsPlain step.now.romc }
    ensures served { IfSome result (λ byte. IsServed step.now placed bus.old.probe bus.new.probe
        (map state rack.old.items) (map state rack.new.items) steps.old steps.new byte) }
    ensures counted { IfSome result (λ byte. Counts queries rack.old.items rack.new.items
        bus.old bus.new steps.old steps.new) }
    ensures stays { result ≡ None → map state rack.new.items ≡ map state rack.old.items }
    ensures unheard { result ≡ None → bus.new.probe ≡ bus.old.probe }
    ensures index_stays { result ≡ None → bus.new.index ≡ bus.old.index }
    ensures untold { result ≡ None → steps.new ≡ steps.old }
    ensures unasked { result ≡ None →
        sum_by queries rack.new.items ≡ sum_by queries rack.old.items }
    ensures stands { StandsFor bus.new.index bus.new.probe (map state rack.new.items) }
    ensures chips { length rack.new.items ≡ length rack.old.items }
{
    let cycle = Cycle {
        romc: step.romc,
        long: step.long,
        byte: placed,
        first: None,
    };
    match step_known(rack, &mut bus.probe, &mut bus.index, cycle) {
        Some(served) => {
            steps.push(heard(step, served));
            Some(served.byte)
        }
        None => None,
    }
}

/// One bus step as [`bus_step`] does it, where the index didn't tell that it is served.
#[tactic(auto, using(crate::proofs::BusAnswers::none_chosen, crate::proofs::BusAnswers::served_by, crate::proofs::BusAnswers::refused_by, crate::proofs::Counting::counts_by, crate::proofs::Counting::tried_by))]
#[inline(never)]
fn whole_step(
    rack: &mut Rack,
    bus: &mut Bus,
    step: &Step,
    placed: u8,
    steps: &mut Record,
    unserved: &mut Unserved,
) -> Result<u8, NotServed>
    requires few { length rack.old.items ≤ MOST_CHIPS }
    requires room { length steps.old < MOST_HEARD }
    requires stands { StandsFor bus.old.index bus.old.probe (map state rack.old.items) }
    requires plain { IsPlain step.now.romc }
    ensures served { IfOk result (λ byte. IsServed step.now placed bus.old.probe bus.new.probe
        (map state rack.old.items) (map state rack.new.items) steps.old steps.new byte) }
    ensures refused { OnErr result (IsRefused step.now unserved.new.fault
        bus.old.probe bus.new.probe (map state rack.old.items) (map state rack.new.items)
        steps.old steps.new) }
    ensures long { OnErr result (unserved.new.long ≡ step.now.long) }
    ensures stands { StandsFor bus.new.index bus.new.probe (map state rack.new.items) }
    ensures counted { IfOk result (λ byte. Counts queries rack.old.items rack.new.items
        bus.old bus.new steps.old steps.new) }
    ensures tried { OnErr result (CountsTried unserved.new.fault queries
        rack.old.items rack.new.items bus.old bus.new steps.old steps.new) }
    ensures chips { length rack.new.items ≡ length rack.old.items }
{
    let cycle = Cycle {
        romc: step.romc,
        long: step.long,
        byte: placed,
        first: None,
    };
    match step_asking(rack, &mut bus.probe, &mut bus.index, &cycle) {
        Ok(served) => {
            steps.push(heard(step, served));
            Ok(served.byte)
        }
        Err(fault) => {
            *unserved = Unserved {
                fault,
                long: step.long,
            };
            Err(NotServed)
        }
    }
}

/// One bus step of an instruction or of reset, with the byte that the CPU places, which counts where nobody else drives. A step that is
/// served is told behind the others, and its byte is answered; one that isn't changes no chip's state, and `unserved` tells it. The index
/// goes on by served steps, and the questions that are put are counted.
#[inline(always)]
pub(crate) fn bus_step(
    rack: &mut Rack,
    bus: &mut Bus,
    step: Step,
    placed: u8,
    steps: &mut Record,
    unserved: &mut Unserved,
) -> Result<u8, NotServed>
    requires few { length rack.old.items ≤ MOST_CHIPS }
    requires room { length steps.old < MOST_HEARD }
    requires stands { StandsFor bus.old.index bus.old.probe (map state rack.old.items) }
    requires plain { IsPlain step.romc }
    ensures served { IfOk result (λ byte. IsServed step placed bus.old.probe bus.new.probe
        (map state rack.old.items) (map state rack.new.items) steps.old steps.new byte) }
    ensures refused { OnErr result (IsRefused step unserved.new.fault
        bus.old.probe bus.new.probe (map state rack.old.items) (map state rack.new.items)
        steps.old steps.new) }
    ensures long { OnErr result (unserved.new.long ≡ step.long) }
    ensures stands { StandsFor bus.new.index bus.new.probe (map state rack.new.items) }
    ensures counted { IfOk result (λ byte. Counts queries rack.old.items rack.new.items
        bus.old bus.new steps.old steps.new) }
    ensures tried { OnErr result (CountsTried unserved.new.fault queries
        rack.old.items rack.new.items bus.old bus.new steps.old steps.new) }
    ensures chips { length rack.new.items ≡ length rack.old.items }
{
    match known_step(rack, bus, &step, placed, steps) {
        Some(byte) => Ok(byte),
        None => whole_step(rack, bus, &step, placed, steps, unserved),
    }
}

/// One bus step, as [`bus_step`] does it. In the two codes of an acknowledgement `first` is the socket of the chip whose interrupt is
/// acknowledged.
#[tactic(auto, using(crate::proofs::BusAnswers::served_by, crate::proofs::BusAnswers::refused_by, crate::proofs::Counting::counts_by, crate::proofs::Counting::tried_by))]
#[inline(always)]
pub(crate) fn bus_step_by(
    rack: &mut Rack,
    bus: &mut Bus,
    step: Step,
    placed: u8,
    first: Option<u8>,
    steps: &mut Record,
    unserved: &mut Unserved,
) -> Result<u8, NotServed>
    requires few { length rack.old.items ≤ MOST_CHIPS }
    requires room { length steps.old < MOST_HEARD }
    requires stands { StandsFor bus.old.index bus.old.probe (map state rack.old.items) }
    requires chosen { ChosenAsks step.romc first (map state rack.old.items) }
    ensures served { IfOk result (λ byte. IsServedBy first step placed bus.old.probe bus.new.probe
        (map state rack.old.items) (map state rack.new.items) steps.old steps.new byte) }
    ensures refused { OnErr result (IsRefusedBy first step unserved.new.fault
        bus.old.probe bus.new.probe (map state rack.old.items) (map state rack.new.items)
        steps.old steps.new) }
    ensures long { OnErr result (unserved.new.long ≡ step.long) }
    ensures stands { StandsFor bus.new.index bus.new.probe (map state rack.new.items) }
    ensures counted { IfOk result (λ byte. Counts queries rack.old.items rack.new.items
        bus.old bus.new steps.old steps.new) }
    ensures tried { OnErr result (CountsTried unserved.new.fault queries
        rack.old.items rack.new.items bus.old bus.new steps.old steps.new) }
    ensures chips { length rack.new.items ≡ length rack.old.items }
{
    let cycle = Cycle {
        romc: step.romc,
        long: step.long,
        byte: placed,
        first,
    };
    match step_by(rack, &mut bus.probe, &mut bus.index, cycle) {
        Ok(served) => {
            steps.push(heard(&step, served));
            Ok(served.byte)
        }
        Err(fault) => {
            *unserved = Unserved {
                fault,
                long: step.long,
            };
            Err(NotServed)
        }
    }
}
