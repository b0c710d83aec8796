// The index of the pages of a rack.
ghost use Rattle.std.specs.Prelude.{◌≡◌, ◌≤◌, List, length, map, true};
ghost use Rattle.f8_spec.specs.BusArbitration.{Seat};
ghost use Rattle.f8_spec.specs.BusCodes.{counter_of as counter_by_table};
ghost use Rattle.probe.specs.ProbeState.{ProbeState};
ghost use Rattle.data_bus.specs.KnownAgreement.{AllAddresses, knows, no_marks};
ghost use Rattle.data_bus.specs.KnownPlaces.{goes_by_counter};
ghost use Rattle.data_bus.specs.PageIndex.{IsIndexOf, Lists, StandsFor, followed, holding, seats};
ghost use Rattle.data_bus.specs.Questions.{AskedAtMost};
ghost use Rattle.data_bus.specs.Racks.{NumberedZip, views};

use super::Rack;
use super::marks::Marks;
use super::page_sockets::Sockets;
use super::page_survey::survey_page;
use chip_face::{Chip, MOST_CHIPS};
use f8_spec::BusRule;
use romc_table::{Romc, counter_of};

/// How many pages there are.
const PAGES: usize = 256;

/// An index of the pages of a rack, by which a bus step finds the chip that answers without asking the others: for each of 256 pages the
/// sockets of the chips that hold it, and of those that have RAM there; and what is known to agree. It is this project's own.
#[derive(Debug, Drop)]
pub struct Index {
    pub(crate) holders: [Sockets; PAGES],
    pub(crate) takers: [Sockets; PAGES],

    /// Some chip that holds a page has no second data counter.
    pub(crate) is_parted: bool,
    pub(crate) marks: Marks,
}

impl Index {
    /// The index of a rack of at most 16 chips. Nothing is known to agree, so it stands for the rack and any probe, if the chips'
    /// counters are addresses. It puts at most 512 questions to each chip.
    pub fn of(rack: &mut Rack) -> Index
        requires { length rack.old.items ≤ MOST_CHIPS }
        ensures lists { IsIndexOf result (seats (map state rack.old.items)) }
        ensures marks { result.marks ≡ no_marks }
        ensures stands { (probe : ProbeState) → AllAddresses (views (map state rack.old.items)) →
            StandsFor result probe (map state rack.new.items) }
        ensures stays { map state rack.new.items ≡ map state rack.old.items }
        ensures asked { NumberedZip (AskedAtMost 512) 0 (map queries rack.old.items)
            (map queries rack.new.items) }
        ensures chips { length rack.new.items ≡ length rack.old.items }
    {
        let mut holders = [Sockets::NoOne; PAGES];
        let mut takers = [Sockets::NoOne; PAGES];
        let mut is_parted = false;
        for page in 0..PAGES {
            let found = survey_page(rack, page as u8);
            holders[page] = found.holders;
            takers[page] = found.takers;
            is_parted |= found.is_parted;
        }
        Index {
            holders,
            takers,
            is_parted,
            marks: Marks::none(),
        }
    }

    /// The sockets of the chips that would drive or take at an address, in a step that goes by a counter.
    #[inline(always)]
    pub(crate) fn sockets_at(&self, rule: BusRule, at: u16) -> &Sockets
        ensures { (these : List Seat) → goes_by_counter rule ≡ true → IsIndexOf self.now these →
            Lists result.now (holding rule at 0 these) }
    {
        let page = usize::from(at / 256);
        match rule {
            BusRule::Store => &self.takers[page],
            _ => &self.holders[page],
        }
    }

    /// The whole address in the counter of a step with a code is known.
    #[inline(always)]
    pub(crate) fn knows(&self, romc: Romc) -> bool
        ensures { result ≡ knows (counter_by_table romc) self.now.marks }
    {
        self.marks.knows(counter_of(romc))
    }

    /// Goes on by a served step.
    #[inline(always)]
    pub(crate) fn follow(&mut self, romc: Romc)
        ensures { self.new ≡ followed romc self.old }
    {
        self.marks.follow(romc, self.is_parted);
    }
}
