// A bus step: asked, decided, and settled.
ghost use Rattle.std.specs.Prelude.{◌≡◌, ◌≤◌, ◌+◌, false, length, map, sum_by, IfOk, OnErr};
ghost use Rattle.f8_spec.specs.BusArbitration.{rule_of as rule_by_table};
ghost use Rattle.probe.specs.ProbeState.{probe_after};
ghost use Rattle.data_bus.specs.Allowances.{allowance_by};
ghost use Rattle.data_bus.specs.Questions.{AskedBy};
ghost use Rattle.data_bus.specs.Racks.{ChosenAsks, NumberedZip, RackSettles, RackStays};
ghost use Rattle.data_bus.specs.Steps.{probe_place, step_answer};

use super::ask::Question;
use super::decide::decide;
use super::poll::gather;
use super::rule::rule_of;
use super::settle::settle_all;
use super::{BusFault, Cycle, Rack, Served};
use chip_face::MOST_CHIPS;
use probe::Probe;
use romc_table::{Counter, Romc, counter_of};

/// The address in the probe's counter, and in a step that goes by no counter the byte last heard, which names the port of a port step.
#[inline(always)]
pub(crate) fn reference_of(probe: &Probe, romc: Romc) -> u16
    ensures { result ≡ probe_place romc probe.now }
{
    let counters = probe.counters();
    match counter_of(romc) {
        Counter::Pc0 => counters.pc0,
        Counter::Pc1 => counters.pc1,
        Counter::Dc0 => counters.dc0,
        Counter::NoCounter => u16::from(probe.last()),
    }
}

/// What a step is to answer: the chips are asked, and the bus rule decides. Nothing changes but how many questions were put.
#[tactic(auto, using(crate::proofs::Racks::may_hear_all))]
// Not inlined, so that a step by an index, of which nearly none comes here, has no room for what the chips answer.
#[inline(never)]
pub(crate) fn ruling(rack: &mut Rack, probe: &Probe, cycle: &Cycle) -> Result<Served, BusFault>
    requires few { length rack.old.items ≤ MOST_CHIPS }
    requires chosen { ChosenAsks cycle.now.romc cycle.now.first (map state rack.old.items) }
    ensures answer { result ≡ step_answer cycle.now probe.now (map state rack.old.items) }
    ensures stays { map state rack.new.items ≡ map state rack.old.items }
    ensures asked { sum_by queries rack.new.items ≤ sum_by queries rack.old.items
        + allowance_by (rule_by_table cycle.now.romc) false (length rack.old.items) }
    ensures each { NumberedZip (AskedBy (rule_by_table cycle.now.romc) cycle.now.first) 0
        (map queries rack.old.items) (map queries rack.new.items) }
    ensures chips { length rack.new.items ≡ length rack.old.items }
{
    let question = Question {
        romc: cycle.romc,
        rule: rule_of(cycle.romc),
        reference: reference_of(probe, cycle.romc),
        first: cycle.first,
    };
    let poll = gather(rack, &question);
    decide(
        question.rule,
        cycle,
        question.reference,
        poll.parties.as_slice(),
        poll.byte,
        poll.bystander,
    )
}

/// One bus step on a rack of at most 16 chips. The chips are asked, each by three questions at most; the bus rule, which is this project's
/// own, decides; and where the step is served every chip and the probe hear it, each once, with the one byte. Where it isn't, no chip's state
/// changes, nor does the probe.
///
/// In the codes 0F and 13 `first` has to name the socket of a chip that asks for an interrupt. In the codes 1A and 1B a chip goes by the
/// last byte that it heard, which names the port; where all have heard the same steps, that is the probe's.
#[tactic(auto, using(crate::proofs::Racks::may_hear_all, crate::proofs::Racks::stays_all, crate::proofs::Questions::sums_alike, crate::proofs::Questions::asked_then))]
#[inline(always)]
pub fn step(rack: &mut Rack, probe: &mut Probe, cycle: Cycle) -> Result<Served, BusFault>
    requires few { length rack.old.items ≤ MOST_CHIPS }
    requires chosen { ChosenAsks cycle.romc cycle.first (map state rack.old.items) }
    ensures answer { result ≡ step_answer cycle probe.old (map state rack.old.items) }

    // Served: every chip and the probe hear the step.
    ensures settled { IfOk result (λ served. RackSettles cycle.romc cycle.long cycle.first
        served.byte (map state rack.old.items) (map state rack.new.items)) }
    ensures heard { IfOk result (λ served. probe.new
        ≡ probe_after cycle.romc served.byte probe.old) }

    // Not served: no state changes.
    ensures stays { OnErr result (RackStays (map state rack.old.items) (map state rack.new.items)) }
    ensures probe_stays { OnErr result (probe.new ≡ probe.old) }

    // The questions that were put.
    ensures asked { sum_by queries rack.new.items ≤ sum_by queries rack.old.items
        + allowance_by (rule_by_table cycle.romc) false (length rack.old.items) }
    ensures each { NumberedZip (AskedBy (rule_by_table cycle.romc) cycle.first) 0
        (map queries rack.old.items) (map queries rack.new.items) }
    ensures chips { length rack.new.items ≡ length rack.old.items }
{
    let served = ruling(rack, probe, &cycle)?;
    settle_all(rack, &cycle, served.byte);
    probe.hear(cycle.romc, served.byte);
    Ok(served)
}
