// A bus step by the index of a rack.
ghost use Rattle.std.specs.Prelude.{◌≡◌, ◌+◌, ◌<◌, ◌≤◌, length, map, sum_by, IfOk, IfSome, OnErr, is_some};
ghost use Rattle.f8_spec.specs.BusArbitration.{rule_of as rule_by_table};
ghost use Rattle.probe.specs.ProbeState.{probe_after};
ghost use Rattle.data_bus.specs.KnownAgreement.{knows};
ghost use Rattle.data_bus.specs.KnownSteps.{tells_served};
ghost use Rattle.data_bus.specs.PageIndex.{StandsFor, allowance, followed};
ghost use Rattle.data_bus.specs.Questions.{AskedBy};
ghost use Rattle.data_bus.specs.Racks.{ChosenAsks, NumberedZip, RackSettles, RackStays};
ghost use Rattle.data_bus.specs.Steps.{step_answer};

use super::decide::{decide, served};
use super::index::Index;
use super::listed_poll::{byte_in_socket, ruling_listed};
use super::page_sockets::Sockets;
use super::rule::rule_of;
use super::settle::settle_all;
use super::transfer::{reference_of, ruling};
use super::{BusFault, Cycle, Rack, Served};
use chip_face::{Chip, MOST_CHIPS};
use f8_spec::{BusRule, Party};
use probe::Probe;

/// The step as it is served, where the index tells by whom: where no chip takes part; and where its counter is known and one chip at most
/// is listed, which is asked for its byte. `None` where it isn't served, or where the index can't tell; then nobody was asked.
#[tactic(auto, using(crate::proofs::Racks::may_hear_all, crate::proofs::Questions::asked_nobody))]
#[inline(always)]
fn served_by(rack: &mut Rack, probe: &Probe, index: &Index, cycle: &Cycle) -> Option<Served>
    requires few { length rack.old.items ≤ MOST_CHIPS }
    requires chosen { ChosenAsks cycle.now.romc cycle.now.first (map state rack.old.items) }
    requires stands { StandsFor index.now probe.now (map state rack.old.items) }
    ensures answer { IfSome result (λ served.
        step_answer cycle.now probe.now (map state rack.old.items) ≡ Ok served) }
    ensures stays { map state rack.new.items ≡ map state rack.old.items }
    ensures asked { IfSome result (λ served. sum_by queries rack.new.items
        ≤ sum_by queries rack.old.items
        + allowance cycle.now.romc index.now (length rack.old.items)) }
    ensures unasked { result ≡ None →
        sum_by queries rack.new.items ≡ sum_by queries rack.old.items }
    ensures each { NumberedZip (AskedBy (rule_by_table cycle.now.romc) cycle.now.first) 0
        (map queries rack.old.items) (map queries rack.new.items) }
    ensures untouched { result ≡ None →
        map queries rack.new.items ≡ map queries rack.old.items }
    ensures told { is_some result ≡ tells_served cycle.now.romc index.now probe.now
        (map state rack.old.items) }
    ensures chips { length rack.new.items ≡ length rack.old.items }
{
    let rule = rule_of(cycle.romc);
    let reference = reference_of(probe, cycle.romc);
    if rule == BusRule::NoChip {
        return served(rule, cycle, reference, &[], 0);
    }
    if !index.knows(cycle.romc) {
        return None;
    }
    match index.sockets_at(rule, reference) {
        Sockets::NoOne => served(rule, cycle, reference, &[], 0),
        Sockets::One(socket) => {
            let socket = *socket;
            let byte = byte_in_socket(rack, socket, cycle);
            let at = reference;
            served(rule, cycle, reference, &[Party { socket, at }], byte)
        }
        Sockets::Several(_) => None,
    }
}

/// Every chip, the probe and the index hear a served step, with its byte.
#[tactic(auto, using(crate::proofs::Racks::may_hear_all, crate::proofs::Questions::sums_alike))]
#[inline(always)]
fn hear_all(rack: &mut Rack, probe: &mut Probe, index: &mut Index, cycle: &Cycle, byte: u8)
    requires few { length rack.old.items ≤ MOST_CHIPS }
    requires chosen { ChosenAsks cycle.now.romc cycle.now.first (map state rack.old.items) }
    requires stands { StandsFor index.old probe.old (map state rack.old.items) }
    ensures settled { RackSettles cycle.now.romc cycle.now.long cycle.now.first byte
        (map state rack.old.items) (map state rack.new.items) }
    ensures heard { probe.new ≡ probe_after cycle.now.romc byte probe.old }
    ensures stands { StandsFor index.new probe.new (map state rack.new.items) }
    ensures marks { index.new ≡ followed cycle.now.romc index.old }
    ensures asked { sum_by queries rack.new.items ≡ sum_by queries rack.old.items }
    ensures untouched { map queries rack.new.items ≡ map queries rack.old.items }
    ensures chips { length rack.new.items ≡ length rack.old.items }
{
    settle_all(rack, cycle, byte);
    probe.hear(cycle.romc, byte);
    index.follow(cycle.romc);
}

/// What a step is to answer: where no chip takes part, by the code alone; where its counter is known, by the sockets that the index lists;
/// and else by asking every chip. Nothing changes but how many questions were put.
#[tactic(auto, using(crate::proofs::Racks::may_hear_all, crate::proofs::Questions::asked_nobody))]
#[inline(always)]
fn ruling_by(
    rack: &mut Rack,
    probe: &Probe,
    index: &Index,
    cycle: &Cycle,
) -> Result<Served, BusFault>
    requires few { length rack.old.items ≤ MOST_CHIPS }
    requires chosen { ChosenAsks cycle.now.romc cycle.now.first (map state rack.old.items) }
    requires stands { StandsFor index.now probe.now (map state rack.old.items) }
    ensures answer { result ≡ step_answer cycle.now probe.now (map state rack.old.items) }
    ensures stays { map state rack.new.items ≡ map state rack.old.items }
    ensures asked { sum_by queries rack.new.items ≤ sum_by queries rack.old.items
        + allowance cycle.now.romc index.now (length rack.old.items) }
    ensures each { NumberedZip (AskedBy (rule_by_table cycle.now.romc) cycle.now.first) 0
        (map queries rack.old.items) (map queries rack.new.items) }
    ensures chips { length rack.new.items ≡ length rack.old.items }
{
    let rule = rule_of(cycle.romc);
    let reference = reference_of(probe, cycle.romc);
    if rule == BusRule::NoChip {
        return decide(rule, cycle, reference, &[], 0, None);
    }
    if index.knows(cycle.romc) {
        let sockets = index.sockets_at(rule, reference);
        ruling_listed(rack, sockets, rule, reference, cycle)
    } else {
        ruling(rack, probe, cycle)
    }
}

/// One bus step as [`step_by`] makes it, where the index alone tells that it is served and by whom: where no chip takes part; and where its
/// counter is known and one chip at most holds the probe's address, or has RAM there in a store. In all other cases it does nothing, and
/// answers `None`.
///
/// It puts no more questions than the step's allowance, and none where it answers `None`.
#[tactic(auto, using(crate::proofs::Questions::asked_then))]
#[inline(always)]
pub fn step_known(
    rack: &mut Rack,
    probe: &mut Probe,
    index: &mut Index,
    cycle: Cycle,
) -> Option<Served>
    requires few { length rack.old.items ≤ MOST_CHIPS }
    requires chosen { ChosenAsks cycle.romc cycle.first (map state rack.old.items) }
    requires stands { StandsFor index.old probe.old (map state rack.old.items) }

    // When it is done.
    ensures told { is_some result ≡ tells_served cycle.romc index.old probe.old
        (map state rack.old.items) }

    // Done: every chip, the probe and the index hear the step.
    ensures answer { IfSome result (λ served.
        step_answer cycle probe.old (map state rack.old.items) ≡ Ok served) }
    ensures settled { IfSome result (λ served. RackSettles cycle.romc cycle.long cycle.first
        served.byte (map state rack.old.items) (map state rack.new.items)) }
    ensures heard { IfSome result (λ served. probe.new
        ≡ probe_after cycle.romc served.byte probe.old) }
    ensures marks { IfSome result (λ served. index.new ≡ followed cycle.romc index.old) }
    ensures asked { IfSome result (λ served. sum_by queries rack.new.items
        ≤ sum_by queries rack.old.items
        + allowance cycle.romc index.old (length rack.old.items)) }
    ensures each { NumberedZip (AskedBy (rule_by_table cycle.romc) cycle.first) 0
        (map queries rack.old.items) (map queries rack.new.items) }

    // Not done: nothing changes.
    ensures stays { result ≡ None →
        map state rack.new.items ≡ map state rack.old.items }
    ensures probe_stays { result ≡ None → probe.new ≡ probe.old }
    ensures index_stays { result ≡ None → index.new ≡ index.old }
    ensures unasked { result ≡ None →
        sum_by queries rack.new.items ≡ sum_by queries rack.old.items }
    ensures untouched { result ≡ None →
        map queries rack.new.items ≡ map queries rack.old.items }
    ensures stands { StandsFor index.new probe.new (map state rack.new.items) }
    ensures chips { length rack.new.items ≡ length rack.old.items }
{
    match served_by(rack, probe, index, &cycle) {
        Some(served) => {
            hear_all(rack, probe, index, &cycle, served.byte);
            Some(served)
        }
        None => None,
    }
}

/// One bus step as [`step_by`] makes it, without a try by the index alone: for a caller that has had `None` of [`step_known`] for it.
///
/// It puts no more questions than the step's allowance.
#[tactic(auto, using(crate::proofs::Racks::stays_all, crate::proofs::Questions::asked_then))]
#[inline(never)]
pub fn step_asking(
    rack: &mut Rack,
    probe: &mut Probe,
    index: &mut Index,
    cycle: &Cycle,
) -> Result<Served, BusFault>
    requires few { length rack.old.items ≤ MOST_CHIPS }
    requires chosen { ChosenAsks cycle.now.romc cycle.now.first (map state rack.old.items) }
    requires stands { StandsFor index.old probe.old (map state rack.old.items) }
    ensures answer { result ≡ step_answer cycle.now probe.old (map state rack.old.items) }
    ensures settled { IfOk result
        (λ served. RackSettles cycle.now.romc cycle.now.long cycle.now.first
        served.byte (map state rack.old.items) (map state rack.new.items)) }
    ensures heard { IfOk result (λ served. probe.new
        ≡ probe_after cycle.now.romc served.byte probe.old) }
    ensures stays { OnErr result (RackStays (map state rack.old.items) (map state rack.new.items)) }
    ensures probe_stays { OnErr result (probe.new ≡ probe.old) }
    ensures stands { StandsFor index.new probe.new (map state rack.new.items) }
    ensures marks { IfOk result (λ served. index.new ≡ followed cycle.now.romc index.old) }
    ensures index_stays { OnErr result (index.new ≡ index.old) }
    ensures asked { sum_by queries rack.new.items ≤ sum_by queries rack.old.items
        + allowance cycle.now.romc index.old (length rack.old.items) }
    ensures each { NumberedZip (AskedBy (rule_by_table cycle.now.romc) cycle.now.first) 0
        (map queries rack.old.items) (map queries rack.new.items) }
    ensures chips { length rack.new.items ≡ length rack.old.items }
{
    let served = ruling_by(rack, probe, index, cycle)?;
    hear_all(rack, probe, index, cycle, served.byte);
    Ok(served)
}

/// One bus step on a rack of at most 16 chips, as [`step`](super::step) makes it, by an index of the rack, which stands for it and the
/// probe before and after. Where the step is served the index goes on by the table of marks, and else it stays.
///
/// No more questions are put than the step's allowance: none where no chip takes part, and one where a chip is named, or where both
/// halves of the step's counter are known; at the codes 1A and 1B one to each chip, and else at most three to each, where the allowance is
/// four.
#[tactic(auto, using(crate::proofs::Questions::asked_since))]
#[inline(always)]
pub fn step_by(
    rack: &mut Rack,
    probe: &mut Probe,
    index: &mut Index,
    cycle: Cycle,
) -> Result<Served, BusFault>
    requires few { length rack.old.items ≤ MOST_CHIPS }
    requires chosen { ChosenAsks cycle.romc cycle.first (map state rack.old.items) }
    requires stands { StandsFor index.old probe.old (map state rack.old.items) }
    ensures answer { result ≡ step_answer cycle probe.old (map state rack.old.items) }

    // Served: every chip and the probe hear the step.
    ensures settled { IfOk result (λ served. RackSettles cycle.romc cycle.long cycle.first
        served.byte (map state rack.old.items) (map state rack.new.items)) }
    ensures heard { IfOk result (λ served. probe.new
        ≡ probe_after cycle.romc served.byte probe.old) }

    // Not served: no state changes.
    ensures stays { OnErr result (RackStays (map state rack.old.items) (map state rack.new.items)) }
    ensures probe_stays { OnErr result (probe.new ≡ probe.old) }

    // The index.
    ensures stands { StandsFor index.new probe.new (map state rack.new.items) }
    ensures marks { IfOk result (λ served. index.new ≡ followed cycle.romc index.old) }
    ensures index_stays { OnErr result (index.new ≡ index.old) }

    // The questions that were put.
    ensures asked { sum_by queries rack.new.items ≤ sum_by queries rack.old.items
        + allowance cycle.romc index.old (length rack.old.items) }
    ensures each { NumberedZip (AskedBy (rule_by_table cycle.romc) cycle.first) 0
        (map queries rack.old.items) (map queries rack.new.items) }
    ensures chips { length rack.new.items ≡ length rack.old.items }
{
    match step_known(rack, probe, index, cycle) {
        Some(served) => Ok(served),
        None => step_asking(rack, probe, index, &cycle),
    }
}
