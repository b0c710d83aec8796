// The chips in the sockets of a rack, as a session reads them.
ghost use Rattle.std.specs.Prelude.{◌≡◌, ◌<◌, ◌≤◌, ◌+◌, length, map, slice_get, sum_by, Some};
ghost use Rattle.f8_spec.specs.ChipState.{ChipState, held_byte};
ghost use Rattle.data_bus.specs.Racks.{views};
ghost use Rattle.chip_debug.specs.Breaks.{own_counters, seconds_differ as differ_second, is_parted as parted_from};
ghost use Rattle.chip_debug.specs.Breaks.{are_apart as apart_from};
ghost use Rattle.chip_debug.specs.Carried.{byte_held as held_by_one};

use chip_face::{Chip, ChipKind, Counters, MOST_CHIPS};
use f8_machine::{Chain, Rack};

fn kind_of(chip: &Box<dyn Chip>) -> ChipKind
    ensures { result ≡ (state chip.now).view.kind }
{
    chip.kind()
}

/// The kind of the chip in a socket.
pub(crate) fn kind_in(rack: &Rack, socket: u8) -> ChipKind
    requires within { socket < length rack.now.items }
    ensures { (s : ChipState) → slice_get (map state rack.now.items) socket ≡ Some s →
        result ≡ s.view.kind }
{
    kind_of(&rack[usize::from(socket)])
}

/// The counters of a chip, by one question; a 3861 has none (Mostek 3861 data sheet), and isn't asked.
fn counters_of(chip: &mut Box<dyn Chip>) -> Option<Counters>
    ensures answer { result ≡ own_counters (state chip.old).view }
    ensures stays { state chip.new ≡ state chip.old }
    ensures asked { queries chip.new ≤ queries chip.old + 1 }
{
    match chip.kind() {
        ChipKind::Psu | ChipKind::Smi => Some(chip.counters()),
        ChipKind::Pio => None,
    }
}

/// The counters of the chip in a socket, by one question at most.
pub(crate) fn counters_in(rack: &mut Rack, socket: u8) -> Option<Counters>
    requires within { socket < length rack.old.items }
    ensures answer { (s : ChipState) → slice_get (map state rack.old.items) socket ≡ Some s →
        result ≡ own_counters s.view }
    ensures stays { map state rack.new.items ≡ map state rack.old.items }
    ensures asked { sum_by queries rack.new.items ≤ sum_by queries rack.old.items + 1 }
    ensures chips { length rack.new.items ≡ length rack.old.items }
{
    counters_of(&mut rack[usize::from(socket)])
}

/// Two second data counters are apart, where there are two.
fn seconds_differ(dc1: Option<u16>, reference: Option<u16>) -> bool
    ensures { result ≡ differ_second dc1 reference }
{
    match (dc1, reference) {
        (Some(dc1), Some(reference)) => dc1 != reference,
        _ => false,
    }
}

/// One of the counters isn't the probe's. A chip without counters never parts.
fn is_parted(reference: &Counters, counters: Option<Counters>) -> bool
    ensures { result ≡ parted_from reference.now counters }
{
    let Some(counters) = counters else {
        return false;
    };
    counters.pc0 != reference.pc0
        || counters.pc1 != reference.pc1
        || counters.dc0 != reference.dc0
        || seconds_differ(counters.dc1, reference.dc1)
}

/// The counters of a chip described aren't the probe's. Each chip described is asked once at most.
pub(crate) fn are_apart(reference: &Counters, chain: &Chain, rack: &mut Rack) -> bool
    requires few { length rack.old.items ≤ MOST_CHIPS }
    ensures apart { result ≡ apart_from reference.now chain.now (views (map state rack.old.items)) }
    ensures stays { map state rack.new.items ≡ map state rack.old.items }
    ensures asked { sum_by queries rack.new.items ≤ sum_by queries rack.old.items
        + length chain.now }
    ensures chips { length rack.new.items ≡ length rack.old.items }
{
    for &socket in chain.as_slice() {
        let sits = usize::from(socket) < rack.len();
        if sits && is_parted(reference, counters_in(rack, socket)) {
            return true;
        }
    }
    false
}

fn byte_of(chip: &mut Box<dyn Chip>, at: u16) -> Option<u8>
    ensures answer { result ≡ held_byte (state chip.old).view at }
    ensures stays { state chip.new ≡ state chip.old }
    ensures asked { queries chip.new ≤ queries chip.old + 1 }
{
    chip.peek(at)
}

/// The byte at an address where the chip in a socket holds it, by one question.
fn byte_in(rack: &mut Rack, socket: u8, at: u16) -> Option<u8>
    requires within { socket < length rack.old.items }
    ensures answer { (s : ChipState) → slice_get (map state rack.old.items) socket ≡ Some s →
        result ≡ held_byte s.view at }
    ensures stays { map state rack.new.items ≡ map state rack.old.items }
    ensures asked { sum_by queries rack.new.items ≤ sum_by queries rack.old.items + 1 }
    ensures chips { length rack.new.items ≡ length rack.old.items }
{
    byte_of(&mut rack[usize::from(socket)], at)
}

/// The byte at an address where one chip alone holds it. Each chip is asked once at most.
pub(crate) fn byte_held(rack: &mut Rack, at: u16) -> Option<u8>
    requires few { length rack.old.items ≤ MOST_CHIPS }
    ensures byte { result ≡ held_by_one (views (map state rack.old.items)) at }
    ensures stays { map state rack.new.items ≡ map state rack.old.items }
    ensures asked { sum_by queries rack.new.items ≤ sum_by queries rack.old.items
        + length rack.old.items }
    ensures chips { length rack.new.items ≡ length rack.old.items }
{
    let mut held = None;
    for socket in 0..rack.len() as u8 {
        if let Some(byte) = byte_in(rack, socket, at) {
            if held.is_some() {
                return None;
            }
            held = Some(byte);
        }
    }
    held
}
