// A served step is heard by every chip.
ghost use Rattle.std.specs.Prelude.{◌≡◌, ◌≤◌, length, map};
ghost use Rattle.f8_spec.specs.BusArbitration.{is_first as is_first_socket};
ghost use Rattle.f8_spec.specs.ChipState.{MayHear};
ghost use Rattle.f8_spec.specs.Instructions.{step_clocks};
ghost use Rattle.data_bus.specs.Racks.{AllMayHear, RackSettles, SettlesStep};

use super::ask::is_first;
use super::{Cycle, Rack};
use chip_face::{Chip, MOST_CHIPS};
use f8_spec::{LONG_STEP_PHI, SHORT_STEP_PHI};
use romc_table::Romc;

/// The length of a step in Φ.
fn clocks(long: bool) -> u8
    ensures { result ≡ step_clocks long }
{
    if long { LONG_STEP_PHI } else { SHORT_STEP_PHI }
}

/// The chip in a socket hears a served step: its code, its length, its byte, and whether it is the chip whose interrupt is acknowledged.
#[inline(always)]
fn settle_at(
    chip: &mut Box<dyn Chip>,
    socket: u8,
    romc: Romc,
    long: bool,
    first: Option<u8>,
    byte: u8,
)
    requires { MayHear romc (is_first_socket first socket) (state chip.old).view }
    ensures settles { SettlesStep romc long first byte socket (state chip.old) (state chip.new) }
    ensures asked { queries chip.new ≡ queries chip.old }
{
    chip.settle(romc, byte, clocks(long), is_first(first, socket));
}

/// Every chip hears a served step, once.
#[inline(always)]
pub(crate) fn settle_all(rack: &mut Rack, cycle: &Cycle, byte: u8)
    requires few { length rack.old.items ≤ MOST_CHIPS }
    requires chosen { AllMayHear cycle.now.romc cycle.now.first (map state rack.old.items) }
    ensures settled { RackSettles cycle.now.romc cycle.now.long cycle.now.first byte
        (map state rack.old.items) (map state rack.new.items) }
    ensures asked { map queries rack.new.items ≡ map queries rack.old.items }
    ensures chips { length rack.new.items ≡ length rack.old.items }
{
    // Each by itself, so that the loop need not read them again for each chip.
    let romc = cycle.romc;
    let long = cycle.long;
    let first = cycle.first;
    for (i, chip) in rack.iter_mut().enumerate() {
        settle_at(chip, i as u8, romc, long, first, byte);
    }
}
