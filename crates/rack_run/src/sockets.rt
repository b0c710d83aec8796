// The sockets that a description needs of a rack, and those that its chips take.
ghost use Rattle.std.specs.Prelude.{◌≡◌, ◌≤◌, ◌<◌, ◌==◌, false, length, map, IfSome};
ghost use Rattle.std.specs.List.{list_any};
ghost use Rattle.f8_spec.specs.ChipState.{same_kind};
ghost use Rattle.rack_run.specs.Seating.{kinds_of};
ghost use Rattle.rack_run.specs.Sockets.{needed_of, sockets_of, shortage_of, shortage_in};
ghost use Rattle.rack_run.specs.Sockets.{free_socket, chain_of};

use chip_face::{Chip, ChipKind, ChipList, ChipSpec, MOST_CHIPS, same_kind};
use data_bus::Rack;
use f8_machine::Chain;

/// A kind of which a description has more chips than a rack has sockets for.
#[derive(Clone, Copy, Debug, PartialEq, Eq)]
pub struct Shortage {
    /// The kind.
    pub kind: ChipKind,

    /// The chips of that kind in the description.
    pub need: u8,

    /// The sockets of that kind in the rack.
    pub have: u8,
}

/// The chips of a kind in a description.
fn sockets_needed(chips: &[ChipSpec], kind: ChipKind) -> u8
    requires few { length chips.now ≤ MOST_CHIPS }
    ensures { result ≡ needed_of kind chips.now }
{
    let mut count = 0;
    for chip in chips {
        if same_kind(kind, chip.kind()) {
            count += 1;
        }
    }
    count
}

/// The chip is of this kind.
fn is_of(chip: &Box<dyn Chip>, kind: ChipKind) -> bool
    ensures { result ≡ same_kind kind (state chip.now).view.kind }
{
    same_kind(kind, chip.kind())
}

/// The sockets of a kind in a rack.
fn sockets(rack: &Rack, kind: ChipKind) -> u8
    requires few { length rack.now.items ≤ MOST_CHIPS }
    ensures { result ≡ sockets_of kind (kinds_of (map state rack.now.items)) }
{
    let mut count = 0;
    for chip in rack.iter() {
        if is_of(chip, kind) {
            count += 1;
        }
    }
    count
}

/// The kind's own shortage, if there is one.
fn shortage_in_kind(chips: &[ChipSpec], rack: &Rack, kind: ChipKind) -> Option<Shortage>
    requires few { length rack.now.items ≤ MOST_CHIPS }
    requires chips { length chips.now ≤ MOST_CHIPS }
    ensures { result ≡ shortage_in kind chips.now (kinds_of (map state rack.now.items)) }
{
    let need = sockets_needed(chips, kind);
    let have = sockets(rack, kind);
    (have < need).then(|| Shortage { kind, need, have })
}

/// The first kind, of the 3851, the 3853 and the 3861 in this order, of which a description has more chips than a rack of at most 16 chips
/// has sockets. That each chip needs a socket of its kind is this project's own.
pub fn first_shortage(chips: &ChipList, rack: &Rack) -> Option<Shortage>
    requires few { length rack.now.items ≤ MOST_CHIPS }
    ensures { result ≡ shortage_of chips.now (kinds_of (map state rack.now.items)) }
{
    let chips = chips.as_slice();
    if let Some(shortage) = shortage_in_kind(chips, rack, ChipKind::Psu) {
        return Some(shortage);
    }
    if let Some(shortage) = shortage_in_kind(chips, rack, ChipKind::Smi) {
        return Some(shortage);
    }
    shortage_in_kind(chips, rack, ChipKind::Pio)
}

/// The first socket of a kind that isn't in the chain.
fn free_socket(rack: &Rack, kind: ChipKind, chain: &Chain) -> Option<u8>
    requires few { length rack.now.items ≤ MOST_CHIPS }
    ensures socket { result ≡ free_socket kind chain.now 0 (kinds_of (map state rack.now.items)) }
    ensures fresh { IfSome result (λ socket. list_any (λ held. held == socket) chain.now ≡ false) }
{
    for (socket, chip) in rack.iter().enumerate() {
        let socket = socket as u8;
        if is_of(chip, kind) && !chain.contains(socket) {
            return Some(socket);
        }
    }
    None
}

/// The sockets in which the chips of a description sit in a rack of at most 16 chips, in the order of the description: the k-th chip of a
/// kind in the k-th socket of that kind. A chip for which the rack has no socket is left out.
pub fn chain_of(chips: &ChipList, rack: &Rack) -> Chain
    requires few { length rack.now.items ≤ MOST_CHIPS }
    ensures { result ≡ chain_of chips.now (kinds_of (map state rack.now.items)) }
{
    let mut chain = Chain::new();
    for chip in chips.as_slice() {
        if let Some(socket) = free_socket(rack, chip.kind(), &chain) {
            chain.push(socket);
        }
    }
    chain
}
