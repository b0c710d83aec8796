// One pass over the chips of a rack, and what it gathers.
ghost use Rattle.std.specs.Prelude.{◌≡◌, ◌+◌, ◌<◌, ◌≤◌, false, None, length, map, sum_by};
ghost use Rattle.data_bus.specs.Allowances.{allowance_by};
ghost use Rattle.data_bus.specs.Questions.{AskedBy};
ghost use Rattle.data_bus.specs.Racks.{AllMayHear, NumberedZip, views};
ghost use Rattle.data_bus.specs.Polling.{no_poll, polled};

use super::ask::{Answer, Question, ask};
use super::{Parties, Rack};
use chip_face::MOST_CHIPS;
use f8_spec::{BusRule, Party};

/// What one pass over the chips gathers in a bus step.
#[derive(Debug, Drop)]
pub(crate) struct Poll {
    /// The chips that drive or take.
    pub(crate) parties: Parties,

    /// The byte of the only one of them, and 00 where there are none or several.
    pub(crate) byte: u8,

    /// The chip in the lowest socket that does neither, but holds the probe's address, in a store in RAM.
    pub(crate) bystander: Option<Party>,
}

impl Poll {
    ghost use Rattle.data_bus.specs.Polling.{counted};

    /// Before the first answer.
    pub(crate) fn new() -> Poll
        ensures { result ≡ no_poll }
    {
        Poll {
            parties: Parties::new(),
            byte: 0,
            bystander: None,
        }
    }

    /// Counts one more chip's answer.
    fn count(&mut self, socket: u8, answer: Answer)
        requires { length self.old.parties < MOST_CHIPS }
        ensures counted { self.new ≡ counted socket answer self.old }
        ensures few { length self.new.parties ≤ length self.old.parties + 1 }
    {
        match answer {
            Answer::TakesPart(offer) => {
                self.byte = if self.parties.is_empty() {
                    offer.byte
                } else {
                    0
                };
                let at = offer.at;
                self.parties.push(Party { socket, at });
            }
            Answer::StandsBy(at) => {
                if self.bystander.is_none() {
                    self.bystander = Some(Party { socket, at });
                }
            }
            Answer::Passes => {}
        }
    }
}

/// One pass over the chips: each is put three questions at most.
#[inline(always)]
fn ask_all(rack: &mut Rack, question: &Question) -> Poll
    requires few { length rack.old.items ≤ MOST_CHIPS }
    requires chosen { AllMayHear question.now.romc question.now.first (map state rack.old.items) }
    ensures answer { result ≡ polled question.now.rule question.now.romc question.now.reference
        question.now.first 0 (views (map state rack.old.items)) no_poll }
    ensures stays { map state rack.new.items ≡ map state rack.old.items }
    ensures asked { sum_by queries rack.new.items ≤ sum_by queries rack.old.items
        + allowance_by question.now.rule false (length rack.old.items) }
    ensures each { NumberedZip (AskedBy question.now.rule question.now.first) 0
        (map queries rack.old.items) (map queries rack.new.items) }
    ensures chips { length rack.new.items ≡ length rack.old.items }
{
    let mut poll = Poll::new();
    for (i, chip) in rack.iter_mut().enumerate() {
        let socket = i as u8;
        let answer = ask(chip, socket, question);
        poll.count(socket, answer);
    }
    poll
}

/// What the chips answer in a step. In a step in which no chip drives or takes, none is asked.
#[tactic(auto, using(crate::proofs::Judging::polled_unasked, crate::proofs::Questions::asked_nobody))]
#[inline(always)]
pub(crate) fn gather(rack: &mut Rack, question: &Question) -> Poll
    requires few { length rack.old.items ≤ MOST_CHIPS }
    requires chosen { AllMayHear question.now.romc question.now.first (map state rack.old.items) }
    ensures answer { result ≡ polled question.now.rule question.now.romc question.now.reference
        question.now.first 0 (views (map state rack.old.items)) no_poll }
    ensures stays { map state rack.new.items ≡ map state rack.old.items }
    ensures asked { sum_by queries rack.new.items ≤ sum_by queries rack.old.items
        + allowance_by question.now.rule false (length rack.old.items) }
    ensures each { NumberedZip (AskedBy question.now.rule question.now.first) 0
        (map queries rack.old.items) (map queries rack.new.items) }
    ensures chips { length rack.new.items ≡ length rack.old.items }
{
    match question.rule {
        BusRule::NoChip => Poll::new(),
        BusRule::Read | BusRule::Store | BusRule::PortRead | BusRule::PortWrite | BusRule::Vector =>
            ask_all(rack, question),
    }
}
