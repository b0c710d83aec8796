//! Which chip's interrupt is taken at the end of an instruction.
ghost use Rattle.std.specs.Prelude.{◌≡◌, ◌≤◌, length, map, take, IfSome, Some};
ghost use Rattle.f8_spec.specs.ChipState.{is_asking};
ghost use Rattle.f8_spec.specs.Instructions.{decoded};
ghost use Rattle.data_bus.specs.Racks.{NamesAsking};
ghost use Rattle.f8_machine.specs.Choosing.{asks_in, chosen_by, first_in, is_open};

use super::chain::Chain;
use chip_face::{Chip, MOST_CHIPS};
use cpu3850::Cpu;
use data_bus::Rack;
use f8_ops::{decode, shields};
use irq_chain::first_asking;

/// One chip asks for an interrupt.
fn asks_one(chip: &Box<dyn Chip>) -> bool
    ensures { result ≡ is_asking (state chip.now).view }
{
    chip.asks()
}

/// The chip in a socket asks for an interrupt. Where the socket is empty none does.
fn asks_in(rack: &Rack, socket: u8) -> bool
    ensures { result ≡ asks_in (map state rack.now.items) socket }
{
    match rack.get(usize::from(socket)) {
        Some(chip) => asks_one(chip),
        None => false,
    }
}

/// Which of the chips described ask, in the order of the description.
fn asks_of(rack: &Rack, sockets: &[u8]) -> [bool; MOST_CHIPS]
    requires { length sockets.now ≤ MOST_CHIPS }
    ensures { take (length sockets.now) result
        ≡ map (asks_in (map state rack.now.items)) sockets.now }
{
    let mut asks = [false; MOST_CHIPS];
    for (place, socket) in sockets.iter().enumerate() {
        asks[place] = asks_in(rack, *socket);
    }
    asks
}

/// The socket of the first chip of the chain that asks.
// Not inlined, since nearly no end of an instruction comes here.
#[inline(never)]
fn first_in(rack: &Rack, chain: &Chain) -> Option<u8>
    ensures first { result ≡ first_in (map state rack.now.items) chain.now }
    ensures asking { IfSome result
        (λ socket. NamesAsking (Some socket) (map state rack.now.items)) }
{
    let sockets = chain.as_slice();
    let asks = asks_of(rack, sockets);
    let place = first_asking(&asks[..sockets.len()], true)?;
    Some(sockets[usize::from(place)])
}

/// At the end of the instruction held an interrupt may be taken: the interrupt control bit is set, and the instruction doesn't shield
/// its end.
fn is_open(cpu: &Cpu) -> bool
    ensures { result ≡ is_open (decoded cpu.now.opcode) cpu.now.registers.status.icb }
{
    if !cpu.icb() {
        return false;
    }
    match decode(cpu.opcode()) {
        Ok(op) => !shields(op),
        Err(_) => false,
    }
}

/// The socket of the chip whose interrupt is taken at the end of the instruction held, as its last step begins. Where the interrupt
/// control bit is clear no chip is asked.
pub(crate) fn choose(cpu: &Cpu, rack: &Rack, chain: &Chain) -> Option<u8>
    ensures chosen { result ≡ chosen_by (decoded cpu.now.opcode) cpu.now.registers.status.icb
        (map state rack.now.items) chain.now }
    ensures asking { IfSome result
        (λ socket. NamesAsking (Some socket) (map state rack.now.items)) }
{
    if is_open(cpu) {
        first_in(rack, chain)
    } else {
        None
    }
}
