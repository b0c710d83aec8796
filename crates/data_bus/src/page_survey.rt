// What the chips of a rack tell of one page.
ghost use Rattle.std.specs.Prelude.{◌≡◌, ◌≤◌, ◌+◌, ◌*◌, length, map};
ghost use Rattle.std.specs.List.{list_any};
ghost use Rattle.f8_spec.specs.BusArbitration.{seat_of};
ghost use Rattle.f8_spec.specs.ChipState.{has_second_counter as has_second};
ghost use Rattle.f8_spec.specs.declared.bus.BusRule.TheVariants.{Read, Store};
ghost use Rattle.data_bus.specs.PageIndex.{Lists, holding, seats};
ghost use Rattle.data_bus.specs.Questions.{AskedAtMost};
ghost use Rattle.data_bus.specs.Racks.{NumberedZip};
ghost use Rattle.data_bus.specs.Surveys.{parts_at, seen_at};

use super::Rack;
use super::ask::is_there;
use super::page_sockets::Sockets;
use chip_face::{Chip, ChipKind, MOST_CHIPS};
use f8_spec::BusRule;

/// What one chip tells of a page.
#[derive(Clone, Copy, Debug)]
pub(crate) struct Seen {
    /// The page is one of its own.
    pub(crate) holds: bool,

    /// And is RAM.
    pub(crate) takes: bool,

    /// It is one of its own, and the chip has no second data counter.
    pub(crate) parts: bool,
}

/// What is found of a page in a whole rack.
#[derive(Debug, Drop)]
pub(crate) struct Survey {
    /// The sockets of the chips that hold the page.
    pub(crate) holders: Sockets,

    /// Those of the chips that have RAM there.
    pub(crate) takers: Sockets,

    /// Some chip that holds the page has no second data counter.
    pub(crate) is_parted: bool,
}

/// Chips of this kind have a second data counter.
fn has_second_counter(kind: ChipKind) -> bool
    ensures { result ≡ has_second kind }
{
    match kind {
        ChipKind::Psu | ChipKind::Pio => false,
        ChipKind::Smi => true,
    }
}

/// Looks at a page of one chip, by two questions at most.
fn look(chip: &mut Box<dyn Chip>, page: u8) -> Seen
    ensures answer { result ≡ seen_at (page * 256) (seat_of (state chip.old).view) }
    ensures stays { state chip.new ≡ state chip.old }
    ensures asked { queries chip.new ≤ queries chip.old + 2 }
{
    let at = u16::from(page) * 256;
    let is_second = has_second_counter(chip.kind());
    let holds = is_there(chip, BusRule::Read, at);
    let takes = is_there(chip, BusRule::Store, at);
    Seen {
        holds,
        takes,
        parts: holds && !is_second,
    }
}

/// Looks at a page of every chip, by two questions each at most.
pub(crate) fn survey_page(rack: &mut Rack, page: u8) -> Survey
    requires { length rack.old.items ≤ MOST_CHIPS }
    ensures holders { Lists result.holders
        (holding Read (page * 256) 0 (seats (map state rack.old.items))) }
    ensures takers { Lists result.takers
        (holding Store (page * 256) 0 (seats (map state rack.old.items))) }
    ensures parted { result.is_parted
        ≡ list_any (parts_at (page * 256)) (seats (map state rack.old.items)) }
    ensures stays { map state rack.new.items ≡ map state rack.old.items }
    ensures asked { NumberedZip (AskedAtMost 2) 0 (map queries rack.old.items)
        (map queries rack.new.items) }
    ensures chips { length rack.new.items ≡ length rack.old.items }
{
    let mut holders = Sockets::NoOne;
    let mut takers = Sockets::NoOne;
    let mut is_parted = false;
    for (i, chip) in rack.iter_mut().enumerate() {
        let seen = look(chip, page);
        holders = holders.with_if(i as u8, seen.holds);
        takers = takers.with_if(i as u8, seen.takes);
        is_parted |= seen.parts;
    }
    Survey {
        holders,
        takers,
        is_parted,
    }
}
