// What a step is to answer by the chips that are listed as holding the probe's address, where every chip is known to be there.
ghost use Rattle.std.specs.Prelude.{◌≡◌, ◌+◌, ◌<◌, ◌≤◌, true, length, map, slice_get, sum_by, Some};
ghost use Rattle.f8_spec.specs.ChipState.{ChipState, MayHear, offered};
ghost use Rattle.f8_spec.specs.BusArbitration.{is_first as is_first_socket, rule_of as rule_by_table};
ghost use Rattle.data_bus.specs.KnownPlaces.{AllAt, byte_in, goes_by_counter, party_at};
ghost use Rattle.data_bus.specs.PageIndex.{Lists, flagged, holding, seats};
ghost use Rattle.data_bus.specs.Polling.{no_poll, polled};
ghost use Rattle.data_bus.specs.Questions.{AskedAtMost, AskedBy};
ghost use Rattle.data_bus.specs.Racks.{AllMayHear, NumberedZip, views};
ghost use Rattle.data_bus.specs.Steps.{poll_answer};

use super::ask::{is_first, offer_of};
use super::decide::decide;
use super::page_sockets::Sockets;
use super::{BusFault, Cycle, Parties, Rack, Served};
use chip_face::{Chip, MOST_CHIPS};
use f8_spec::{BusRule, Party};

/// The parties in the sockets whose flags are set, all at one address.
fn parties_at(flags: &[bool; MOST_CHIPS], at: u16) -> Parties
    ensures { result ≡ map (party_at at) (flagged 0 flags.now) }
{
    let mut parties = Parties::new();
    for (i, flag) in flags.iter().enumerate() {
        if *flag {
            let socket = i as u8;
            parties.push(Party { socket, at });
        }
    }
    parties
}

/// The byte of what one chip offers, by one question.
#[inline(always)]
fn byte_of(chip: &mut Box<dyn Chip>, socket: u8, cycle: &Cycle) -> u8
    requires { MayHear cycle.now.romc (is_first_socket cycle.now.first socket)
        (state chip.old).view }
    ensures answer { result ≡ byte_in (offered cycle.now.romc
        (is_first_socket cycle.now.first socket) (state chip.old).view) }
    ensures stays { state chip.new ≡ state chip.old }
    ensures asked { queries chip.new ≤ queries chip.old + 1 }
{
    match offer_of(chip, cycle.romc, is_first(cycle.first, socket)) {
        Some(offer) => offer.byte,
        None => 0,
    }
}

/// The byte of what the chip in a socket offers, by one question.
#[inline(always)]
pub(crate) fn byte_in_socket(rack: &mut Rack, socket: u8, cycle: &Cycle) -> u8
    requires seated { socket < length rack.old.items }
    requires chosen { AllMayHear cycle.now.romc cycle.now.first (map state rack.old.items) }
    ensures answer { (s : ChipState) → slice_get (map state rack.old.items) socket ≡ Some s →
        result ≡ byte_in (offered cycle.now.romc
        (is_first_socket cycle.now.first socket) s.view) }
    ensures stays { map state rack.new.items ≡ map state rack.old.items }
    ensures asked { sum_by queries rack.new.items ≤ sum_by queries rack.old.items + 1 }
    ensures each { NumberedZip (AskedAtMost 1) 0 (map queries rack.old.items)
        (map queries rack.new.items) }
    ensures chips { length rack.new.items ≡ length rack.old.items }
{
    byte_of(&mut rack[usize::from(socket)], socket, cycle)
}

/// What a step is to answer that goes by a counter, where every chip is at the probe's address: by the sockets of those that hold it.
/// One chip is asked at most, and that by one question.
#[tactic(auto, using(crate::proofs::Questions::asked_nobody, crate::proofs::Questions::one_allowed))]
pub(crate) fn ruling_listed(
    rack: &mut Rack,
    sockets: &Sockets,
    rule: BusRule,
    reference: u16,
    cycle: &Cycle,
) -> Result<Served, BusFault>
    requires few { length rack.old.items ≤ MOST_CHIPS }
    requires chosen { AllMayHear cycle.now.romc cycle.now.first (map state rack.old.items) }
    requires code { cycle.now.romc < 32 }
    requires rule { rule ≡ rule_by_table cycle.now.romc }
    requires by_counter { goes_by_counter rule ≡ true }
    requires listed { Lists sockets.now (holding rule reference 0
        (seats (map state rack.old.items))) }
    requires known { AllAt cycle.now.romc reference (views (map state rack.old.items)) }
    ensures answer { result ≡ poll_answer rule cycle.now reference
        (polled rule cycle.now.romc reference cycle.now.first 0
        (views (map state rack.old.items)) no_poll) }
    ensures stays { map state rack.new.items ≡ map state rack.old.items }
    ensures asked { sum_by queries rack.new.items ≤ sum_by queries rack.old.items + 1 }
    ensures each { NumberedZip (AskedBy rule cycle.now.first) 0 (map queries rack.old.items)
        (map queries rack.new.items) }
    ensures chips { length rack.new.items ≡ length rack.old.items }
{
    match sockets {
        Sockets::NoOne => decide(rule, cycle, reference, &[], 0, None),
        Sockets::One(socket) => {
            let socket = *socket;
            let byte = byte_in_socket(rack, socket, cycle);
            let at = reference;
            decide(rule, cycle, reference, &[Party { socket, at }], byte, None)
        }
        Sockets::Several(flags) => {
            let parties = parties_at(flags, reference);
            decide(rule, cycle, reference, parties.as_slice(), 0, None)
        }
    }
}
