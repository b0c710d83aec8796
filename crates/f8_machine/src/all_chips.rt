//! What comes to every chip of a rack beside the bus: power, and key bytes from outside.
ghost use Rattle.std.specs.Prelude.{◌≡◌, ◌≤◌, ◌==◌, length, map, position, unwrap_or};
ghost use Rattle.f8_spec.specs.ChipState.{PowersOn};
ghost use Rattle.f8_spec.specs.Powers.{said_of};
ghost use Rattle.console_spec.specs.Powering.{power_in, power_start};
ghost use Rattle.f8_machine.specs.Keying.{KeysInSocket, RackTakesKeys};
ghost use Rattle.f8_machine.specs.Rounds.{RackPowers};

use chip_face::{Chip, MOST_CHIPS, PowerOn, USUAL_POWER};
use data_bus::Rack;

/// The place of the chip in a socket among those described.
fn place_of(socket: u8, chain: &[u8]) -> Option<usize>
    ensures { result ≡ position (λ held. held == socket) chain.now }
{
    chain.iter().position(|held| *held == socket)
}

/// What is said of the chip in a place of the description.
fn said_of(place: usize, powers: &[PowerOn]) -> PowerOn
    ensures { result ≡ said_of powers.now place }
{
    powers.get(place).copied().unwrap_or(USUAL_POWER)
}

/// What is said of the power-on of the chip in a socket.
fn power_for(socket: u8, chain: &[u8], powers: &[PowerOn]) -> PowerOn
    ensures { result ≡ power_in chain.now powers.now socket }
{
    match place_of(socket, chain) {
        Some(place) => said_of(place, powers),
        None => USUAL_POWER,
    }
}

/// Power-on of the chip in a socket, as is said of it. Where nothing is said its RAM has the power byte, and its counters stand at the power
/// byte in both halves, and the socket added.
fn power_at(chip: &mut Box<dyn Chip>, socket: u8, fill: u8, power: PowerOn)
    ensures powers { PowersOn (unwrap_or power.fill fill)
        (unwrap_or power.start (power_start fill socket))
        (state chip.old) (state chip.new) }
    ensures asked { queries chip.new ≡ queries chip.old }
{
    let start = (u16::from(fill) * 257).wrapping_add(u16::from(socket));
    chip.power(power.fill.unwrap_or(fill), power.start.unwrap_or(start));
}

/// Power-on of every chip.
pub(crate) fn power_all(rack: &mut Rack, fill: u8, chain: &[u8], powers: &[PowerOn])
    requires few { length rack.old.items ≤ MOST_CHIPS }
    ensures powered { RackPowers fill chain.now powers.now
        (map state rack.old.items) (map state rack.new.items) }
    ensures asked { map queries rack.new.items ≡ map queries rack.old.items }
    ensures chips { length rack.new.items ≡ length rack.old.items }
{
    for (socket, chip) in rack.iter_mut().enumerate() {
        let power = power_for(socket as u8, chain, powers);
        power_at(chip, socket as u8, fill, power);
    }
}

/// A key byte at one chip. Where it doesn't have the port as a data port nothing changes.
fn key_at(chip: &mut Box<dyn Chip>, port: u8, byte: u8)
    ensures keys { KeysInSocket port byte 0 (state chip.old) (state chip.new) }
    ensures asked { queries chip.new ≡ queries chip.old }
{
    chip.keys(port, byte);
}

/// A key byte at every chip.
pub(crate) fn key_all(rack: &mut Rack, port: u8, byte: u8)
    requires few { length rack.old.items ≤ MOST_CHIPS }
    ensures keyed { RackTakesKeys port byte (map state rack.old.items) (map state rack.new.items) }
    ensures asked { map queries rack.new.items ≡ map queries rack.old.items }
    ensures chips { length rack.new.items ≡ length rack.old.items }
{
    for chip in rack.iter_mut() {
        key_at(chip, port, byte);
    }
}
