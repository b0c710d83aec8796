//! An external pulse at one chip of a rack.
ghost use Rattle.std.specs.Prelude.{◌≡◌, ◌≤◌, length, map};
ghost use Rattle.f8_machine.specs.RequestsHeld.{PulsesInSocket, RackPulses};

use chip_face::{Chip, MOST_CHIPS};
use data_bus::Rack;

/// A pulse at a chip where its socket is the one chosen. At any other nothing changes.
fn pulse_if(chip: &mut Box<dyn Chip>, socket: u8, chosen: u8)
    ensures pulses { PulsesInSocket chosen socket (state chip.old) (state chip.new) }
    ensures asked { queries chip.new ≡ queries chip.old }
{
    if chosen == socket {
        chip.pulse();
    }
}

/// A pulse at the chip in a socket. Every other chip stays as it was, and where the socket is empty every chip does.
pub(crate) fn pulse_at(rack: &mut Rack, chosen: u8)
    requires few { length rack.old.items ≤ MOST_CHIPS }
    ensures pulsed { RackPulses chosen (map state rack.old.items) (map state rack.new.items) }
    ensures asked { map queries rack.new.items ≡ map queries rack.old.items }
    ensures chips { length rack.new.items ≡ length rack.old.items }
{
    for (socket, chip) in rack.iter_mut().enumerate() {
        pulse_if(chip, socket as u8, chosen);
    }
}
