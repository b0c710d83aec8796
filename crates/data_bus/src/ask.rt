// The question that a bus step puts to one chip, and its answer.
ghost use Rattle.std.specs.Prelude.{ℕ, ◌≡◌, ◌≤◌, ◌+◌, false};
ghost use Rattle.f8_spec.specs.BusArbitration.{is_first as is_first_socket, seat_of, would_answer};
ghost use Rattle.f8_spec.specs.BusCodes.{counter_of as counter_of_code};
ghost use Rattle.f8_spec.specs.ChipState.{MayHear, offered, told_counters};
ghost use Rattle.data_bus.specs.Allowances.{questions_at};
ghost use Rattle.data_bus.specs.Polling.{told_place as place_told, answer_by, answer_of};

use chip_face::{Chip, Offer};
use f8_spec::BusRule;
use romc_table::{Counter, Counters, Romc, counter_of};

/// What a chip answers in a bus step.
#[derive(Clone, Copy, Debug, PartialEq, Eq)]
pub(crate) enum Answer {
    /// It drives a byte, or takes one.
    TakesPart(Offer),

    /// It does neither, but holds the probe's address, in a store in RAM. The address in its own counter.
    StandsBy(u16),

    /// It does neither.
    Passes,
}

/// What the chips are asked in one step.
#[derive(Debug, Drop)]
pub(crate) struct Question {
    pub(crate) romc: Romc,
    pub(crate) rule: BusRule,

    /// The address in the probe's counter, or the port.
    pub(crate) reference: u16,

    /// The socket of the chip whose interrupt is acknowledged.
    pub(crate) first: Option<u8>,
}

/// The address in a counter that a chip tells, and 0 where there is none.
fn told_place(counters: Counters, counter: Counter) -> u16
    ensures { result ≡ place_told counter counters }
{
    match counter {
        Counter::Pc0 => counters.pc0,
        Counter::Pc1 => counters.pc1,
        Counter::Dc0 => counters.dc0,
        Counter::NoCounter => 0,
    }
}

/// The socket is that of the chip whose interrupt is acknowledged.
pub(crate) fn is_first(first: Option<u8>, socket: u8) -> bool
    ensures { result ≡ is_first_socket first socket }
{
    match first {
        Some(chosen) => chosen == socket,
        None => false,
    }
}

/// What a chip drives or takes in a step, by one question.
#[inline(always)]
pub(crate) fn offer_of(chip: &mut Box<dyn Chip>, romc: Romc, mark: bool) -> Option<Offer>
    requires { MayHear romc mark (state chip.old).view }
    ensures answer { result ≡ offered romc mark (state chip.old).view }
    ensures stays { state chip.new ≡ state chip.old }
    ensures asked { queries chip.new ≤ queries chip.old + 1 }
{
    chip.offer(romc, mark)
}

/// A chip would drive or take at the probe's address. It takes one question at most.
#[tactic(auto, using(crate::proofs::Answers::is_some_mapped))]
#[inline(always)]
pub(crate) fn is_there(chip: &mut Box<dyn Chip>, rule: BusRule, reference: u16) -> bool
    ensures answer { result ≡ would_answer rule (seat_of (state chip.old).view) reference }
    ensures stays { state chip.new ≡ state chip.old }
    ensures asked { queries chip.new ≤ queries chip.old + 1 }
{
    match rule {
        BusRule::Read => chip.peek(reference).is_some(),
        BusRule::Store => chip.takes(reference),
        BusRule::PortRead | BusRule::PortWrite | BusRule::Vector | BusRule::NoChip => false,
    }
}

/// The address in a chip's own counter of a step, by one question.
// Not inlined, since nearly no step comes here.
#[inline(never)]
fn own_place(chip: &mut Box<dyn Chip>, romc: Romc) -> u16
    ensures answer { result
        ≡ place_told (counter_of_code romc) (told_counters (state chip.old).view) }
    ensures stays { state chip.new ≡ state chip.old }
    ensures asked { queries chip.new ≤ queries chip.old + 1 }
{
    told_place(chip.counters(), counter_of(romc))
}

/// What a chip that offers nothing does: it stands by where it holds the probe's address. It takes two questions at most.
#[inline(always)]
fn stand_by(chip: &mut Box<dyn Chip>, question: &Question) -> Answer
    ensures answer { result ≡ answer_by None
        (would_answer question.now.rule (seat_of (state chip.old).view) question.now.reference)
        (place_told (counter_of_code question.now.romc) (told_counters (state chip.old).view)) }
    ensures stays { state chip.new ≡ state chip.old }
    ensures asked { queries chip.new ≤ queries chip.old + 2 }
{
    if is_there(chip, question.rule, question.reference) {
        Answer::StandsBy(own_place(chip, question.romc))
    } else {
        Answer::Passes
    }
}

/// Asks a chip in a step that goes by its counters: what it offers, and where it offers nothing whether it holds the probe's address,
/// and then where its own counter is.
#[inline(always)]
fn ask_holder(chip: &mut Box<dyn Chip>, mark: bool, question: &Question) -> Answer
    requires { MayHear question.now.romc mark (state chip.old).view }
    ensures answer { result ≡ answer_by (offered question.now.romc mark (state chip.old).view)
        (would_answer question.now.rule (seat_of (state chip.old).view) question.now.reference)
        (place_told (counter_of_code question.now.romc) (told_counters (state chip.old).view)) }
    ensures stays { state chip.new ≡ state chip.old }
    ensures asked { queries chip.new ≤ queries chip.old + 3 }
{
    match offer_of(chip, question.romc, mark) {
        Some(offer) => Answer::TakesPart(offer),
        None => stand_by(chip, question),
    }
}

/// Asks a chip in a step that goes by no counter of it: what it offers.
#[inline(always)]
fn ask_offer(chip: &mut Box<dyn Chip>, romc: Romc, mark: bool) -> Answer
    requires { MayHear romc mark (state chip.old).view }
    ensures answer { (at : ℕ) → result
        ≡ answer_by (offered romc mark (state chip.old).view) false at }
    ensures stays { state chip.new ≡ state chip.old }
    ensures asked { queries chip.new ≤ queries chip.old + 1 }
{
    match offer_of(chip, romc, mark) {
        Some(offer) => Answer::TakesPart(offer),
        None => Answer::Passes,
    }
}

/// Asks the chip in a socket by the rule of the step. An acknowledgement is the named chip's alone.
#[inline(always)]
pub(crate) fn ask(chip: &mut Box<dyn Chip>, socket: u8, question: &Question) -> Answer
    requires { MayHear question.now.romc (is_first_socket question.now.first socket)
        (state chip.old).view }
    ensures answer { result ≡ answer_of question.now.rule question.now.romc question.now.reference
        (is_first_socket question.now.first socket) (state chip.old).view }
    ensures stays { state chip.new ≡ state chip.old }
    ensures asked { queries chip.new ≤ queries chip.old
        + questions_at question.now.rule (is_first_socket question.now.first socket) }
{
    let mark = is_first(question.first, socket);
    match question.rule {
        BusRule::Read | BusRule::Store => ask_holder(chip, mark, question),
        BusRule::PortRead | BusRule::PortWrite => ask_offer(chip, question.romc, mark),
        BusRule::Vector => {
            if mark {
                ask_offer(chip, question.romc, mark)
            } else {
                Answer::Passes
            }
        }
        BusRule::NoChip => Answer::Passes,
    }
}
