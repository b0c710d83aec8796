// Fitting a rack for a description.
ghost use Rattle.std.specs.Prelude.{◌≡◌, ◌≤◌, ◌<◌, ◌+◌, length, map, slice_get};
ghost use Rattle.std.specs.Prelude.{IfSome, OnOk, OnErr, Some, None, All};
ghost use Rattle.f8_spec.specs.declared.chips.ChipKind.{ChipKind};
ghost use Rattle.f8_spec.specs.BusArbitration.{seat_of};
ghost use Rattle.f8_spec.specs.ChipState.{IsWhole, same_kind};
ghost use Rattle.cpu3850.specs.OwnWrites.{LeaveOwnPorts};
ghost use Rattle.data_bus.specs.Racks.{views};
ghost use Rattle.chip_face.specs.Fitting.{FitsAs, IsSpec, kind_of};
ghost use Rattle.f8_machine.specs.Refinement.{AreWhole};
ghost use Rattle.rack_run.specs.Seating.{LeavesOwn, of_kind, seat_at, so_far, no_sockets, counted, seated};
ghost use Rattle.rack_run.specs.Seating.{fitted_views, RackFits, RackFitsInPart};

use chip_face::{Chip, ChipKind, ChipList, ChipSpec, FitFault, MOST_CHIPS, Memory, same_kind};
use data_bus::Rack;
use std::alloc::Global;

/// Fits a chip of the specification's kind, or is in want of memory. Then the chip is as it was.
#[tactic(auto, using(crate::proofs::Seats::leaves_own))]
fn fit_one(alloc: Global, chip: &mut Box<dyn Chip>, spec: &ChipSpec) -> Result<(), Memory>
    requires spec { IsSpec spec.now }
    requires kind { kind_of spec.now ≡ (state chip.old).view.kind }
    ensures fits { OnOk result (FitsAs spec.now (state chip.old) (state chip.new)) }
    ensures whole { OnOk result (IsWhole (state chip.new).view) }
    ensures ports { OnOk result (LeavesOwn (state chip.new).view) }
    ensures same { OnErr result (state chip.new ≡ state chip.old) }
    ensures asked { queries chip.new ≡ queries chip.old }
{
    match chip.fit(alloc, spec) {
        Ok(()) => Ok(()),
        Err(FitFault::Memory) => Err(Memory),
        Err(FitFault::WrongKind) => unreachable!(),
    }
}

/// The chip of a kind with so many of the kind before it.
#[tactic(auto, using(f8_spec::proofs::SameKind::is_same))]
fn nth_of_kind(chips: &[ChipSpec], kind: ChipKind, before: usize) -> Option<&ChipSpec>
    requires specified { All IsSpec chips.now }
    ensures some { IfSome result (λ spec.
        slice_get (of_kind kind chips.now) before ≡ Some spec.now) }
    ensures kind { IfSome result (λ spec. kind_of spec.now ≡ kind) }
    ensures specified { IfSome result (λ spec. IsSpec spec.now) }
    ensures none { result ≡ None → slice_get (of_kind kind chips.now) before ≡ None }
{
    let mut left = before;
    for spec in chips {
        if same_kind(kind, spec.kind()) {
            if left == 0 {
                return Some(spec);
            }
            left -= 1;
        }
    }
    None
}

/// Fits the chip in a socket with the chip of its kind that sits there, by the sockets of its kind before it. A socket that is left over
/// is blank.
fn fit_socket(
    alloc: Global,
    chips: &[ChipSpec],
    kind: ChipKind,
    before: usize,
    chip: &mut Box<dyn Chip>,
) -> Result<(), Memory>
    requires specified { All IsSpec chips.now }
    requires kind { kind ≡ (state chip.old).view.kind }
    ensures fits { OnOk result
        (FitsAs (seat_at chips.now kind before) (state chip.old) (state chip.new)) }
    ensures whole { OnOk result (IsWhole (state chip.new).view) }
    ensures ports { OnOk result (LeavesOwn (state chip.new).view) }
    ensures same { OnErr result (state chip.new ≡ state chip.old) }
    ensures asked { queries chip.new ≡ queries chip.old }
{
    match nth_of_kind(chips, kind, before) {
        Some(spec) => fit_one(alloc, chip, spec),
        None => fit_one(alloc, chip, &ChipSpec::Blank(kind)),
    }
}

/// The sockets of each kind so far. Contracts see them as a function of the kind.
#[derive(Clone, Copy, Debug)]
struct Sockets {
    psus: usize,
    smis: usize,
    pios: usize,
}

impl Sockets {
    /// None of any kind.
    fn new() -> Sockets
        ensures { (kind : ChipKind) → so_far result kind ≡ no_sockets kind }
    {
        Sockets {
            psus: 0,
            smis: 0,
            pios: 0,
        }
    }

    /// Those of a kind.
    fn of(&self, kind: ChipKind) -> usize
        ensures { result ≡ so_far self.now kind }
    {
        match kind {
            ChipKind::Psu => self.psus,
            ChipKind::Smi => self.smis,
            ChipKind::Pio => self.pios,
        }
    }

    /// Counts one more of a kind.
    fn count(&mut self, kind: ChipKind)
        requires { so_far self.old kind < MOST_CHIPS }
        ensures { (other : ChipKind) →
            so_far self.new other ≡ counted kind (so_far self.old) other }
    {
        match kind {
            ChipKind::Psu => self.psus += 1,
            ChipKind::Smi => self.smis += 1,
            ChipKind::Pio => self.pios += 1,
        }
    }
}

/// Fits the chip in the next socket, and counts the socket.
fn fit_next(
    alloc: Global,
    chips: &[ChipSpec],
    sockets: &mut Sockets,
    chip: &mut Box<dyn Chip>,
) -> Result<(), Memory>
    requires specified { All IsSpec chips.now }
    requires few { (kind : ChipKind) → so_far sockets.old kind < MOST_CHIPS }
    ensures fits { let kind = (state chip.old).view.kind in OnOk result
        (FitsAs (seat_at chips.now kind (so_far sockets.old kind)) (state chip.old)
        (state chip.new)) }
    ensures whole { OnOk result (IsWhole (state chip.new).view) }
    ensures ports { OnOk result (LeavesOwn (state chip.new).view) }
    ensures same { OnErr result (state chip.new ≡ state chip.old) }
    ensures asked { queries chip.new ≡ queries chip.old }
    ensures counted { (kind : ChipKind) → so_far sockets.new kind
        ≡ counted (state chip.old).view.kind (so_far sockets.old) kind }
{
    let kind = chip.kind();
    let before = sockets.of(kind);
    sockets.count(kind);
    fit_socket(alloc, chips, kind, before, chip)
}

/// Fits a rack of at most 16 chips for a description: the k-th chip of a kind goes to the k-th socket of that kind, and all other sockets
/// are blank. Where memory is wanting, so many chips are fitted, not all of them, and those behind are as they were.
pub fn fit_all(alloc: Global, chips: &ChipList, rack: &mut Rack) -> Result<(), Memory>
    requires few { length rack.old.items ≤ MOST_CHIPS }
    ensures fitted { OnOk result (RackFits (seated chips.now (map state rack.old.items))
        (map state rack.old.items) (map state rack.new.items)) }
    ensures partly { OnErr result (RackFitsInPart (seated chips.now (map state rack.old.items))
        (map state rack.old.items) (map state rack.new.items)) }
    ensures whole { OnOk result (AreWhole (map state rack.new.items)) }
    ensures ports { OnOk result (LeaveOwnPorts (map seat_of (views (map state rack.new.items)))) }
    ensures views { OnOk result
        (views (map state rack.new.items) ≡ fitted_views chips.now (map state rack.old.items)) }
    ensures asked { map queries rack.new.items ≡ map queries rack.old.items }
    ensures chips { length rack.new.items ≡ length rack.old.items }
{
    let chips = chips.as_slice();
    let mut sockets = Sockets::new();
    for chip in rack.iter_mut() {
        fit_next(alloc, chips, &mut sockets, chip)?;
    }
    Ok(())
}
