// Worked bus steps, pulses, and what is told of them as text.
ghost use Rattle.std.specs.Prelude.{◌≡◌, true, map, IfOk};
ghost use Rattle.f8_spec.specs.ChipState.{is_asking};
ghost use Rattle.data_bus.specs.Racks.{NamesAsking};
ghost use Rattle.bus_rows.specs.Indexed.{FitsIndexed};

use super::bus::{Bus, pulse};
use super::words::{check, spelled};
use chip_face::Chip;
use data_bus::{BusFault, Cycle, Rack, Served};
use romc_table::Romc;
use std::alloc::Global;
use std::fmt::Write;
use std::process::Abort;
use std::test::Fail;

fn asks(chip: &Box<dyn Chip>) -> bool
    ensures { result ≡ is_asking (state chip.now).view }
{
    chip.asks()
}

/// The named socket has a chip that asks for an interrupt.
fn names_asking(rack: &Rack, first: Option<u8>) -> bool
    ensures { result ≡ true → NamesAsking first (map state rack.now.items) }
{
    match first {
        Some(socket) => match rack.get(usize::from(socket)) {
            Some(chip) => asks(chip),
            None => false,
        },
        None => false,
    }
}

/// What is told of a bus step: where it is served its byte and the socket of the chip that drove or took it, and a fault as in a stop line.
fn told(alloc: Global, answer: &Result<Served, BusFault>) -> Result<String, Fail> {
    match answer {
        Ok(served) => told_served(alloc, *served),
        Err(fault) => told_fault(alloc, fault),
    }
}

fn told_served(alloc: Global, served: Served) -> Result<String, Fail> {
    let byte = served.byte;
    match served.socket {
        Some(socket) => Ok(format!(in alloc; "served {byte:02X} socket {socket}")?),
        None => Ok(format!(in alloc; "served {byte:02X}")?),
    }
}

fn told_fault(alloc: Global, fault: &BusFault) -> Result<String, Fail> {
    match fault {
        BusFault::Conflict { romc, parties } => {
            let number = romc.number();
            let mut text = format!(in alloc; "conflict romc {number:02X}")?;
            for party in parties.as_slice() {
                let socket = party.socket;
                let at = party.at;
                write!(text, " socket {socket} at {at:04X}")?;
            }
            Ok(text)
        }
        BusFault::Undriven { romc, at } => {
            let number = romc.number();
            Ok(format!(in alloc; "undriven romc {number:02X} at {at:04X}")?)
        }
        BusFault::Astray {
            romc,
            socket,
            at,
            reference,
        } => {
            let number = romc.number();
            Ok(format!(in alloc;
                "astray romc {number:02X} socket {socket} at {at:04X} reference {reference:04X}"
            )?)
        }
    }
}

/// A long bus step, and what is told of it. `Err` where it may not be asked for. In the codes 0F and 13 the chip in the socket `first` is
/// acknowledged.
fn one_step(
    alloc: Global,
    rack: &mut Rack,
    bus: &mut Bus,
    code: &str,
    byte: u16,
    first: Option<u8>,
) -> Result<String, Fail>
    requires fits { FitsIndexed bus.old.index bus.old.probe (map state rack.old.items) }
    ensures fits { IfOk result (λ text. FitsIndexed bus.new.index bus.new.probe (map state rack.new.items)) }
{
    let number = u8::from_str_radix(code, 16)?;
    let cycle = Cycle {
        romc: Romc::of(number).ok_or(code)?,
        long: true,
        byte: u8::try_from(byte)?,
        first,
    };
    if rack.len() > 16 {
        return Err("more than 16 chips".into());
    }
    let acknowledges = number == 0x0F || number == 0x13;
    if acknowledges && !names_asking(rack, first) {
        return Err("the named chip doesn't ask".into());
    }
    let answer = bus.step(rack, cycle);
    told(alloc, &answer)
}

/// Whether the chip in a socket asks for an interrupt.
fn is_asking(rack: &Rack, socket: usize) -> bool {
    match rack.get(socket) {
        Some(chip) => chip.asks(),
        None => false,
    }
}

/// A pulse to the chip in a socket, and whether it asks before and behind it.
fn pulsed(alloc: Global, rack: &mut Rack, bus: &Bus, socket: usize) -> Result<String, Fail>
    requires fits { FitsIndexed bus.now.index bus.now.probe (map state rack.old.items) }
    ensures fits { IfOk result (λ text. FitsIndexed bus.now.index bus.now.probe (map state rack.new.items)) }
{
    if socket >= rack.len() {
        return Err("no such socket".into());
    }
    let before = is_asking(rack, socket);
    pulse(rack, bus, socket);
    let behind = is_asking(rack, socket);
    Ok(format!(in alloc; "{before} {behind}")?)
}

/// What is told of what a line does.
fn told_by(alloc: Global, rack: &mut Rack, bus: &mut Bus, what: &str) -> Result<String, Fail>
    requires fits { FitsIndexed bus.old.index bus.old.probe (map state rack.old.items) }
    ensures fits { IfOk result (λ text. FitsIndexed bus.new.index bus.new.probe (map state rack.new.items)) }
{
    let (word, numbers) = spelled(alloc, what)?;
    match (word, numbers.as_slice()) {
        ("asks", [socket]) => {
            let asking = is_asking(rack, usize::from(*socket));
            Ok(format!(in alloc; "{asking}")?)
        }
        ("pulse", [socket]) => pulsed(alloc, rack, bus, usize::from(*socket)),
        (code, [byte]) => one_step(alloc, rack, bus, code, *byte, None),
        (code, [byte, first]) => {
            let first = u8::try_from(*first)?;
            one_step(alloc, rack, bus, code, *byte, Some(first))
        }
        _ => Err(what.into()),
    }
}

/// Does what the lines of a cart tell, one behind another, and compares what is told of it.
pub(crate) fn walk(
    rt: &impl Abort,
    alloc: Global,
    rack: &mut Rack,
    bus: &mut Bus,
    lines: &str,
) -> Result<(), Fail>
    requires fits { FitsIndexed bus.old.index bus.old.probe (map state rack.old.items) }
    ensures fits { IfOk result (λ done. FitsIndexed bus.new.index bus.new.probe (map state rack.new.items)) }
{
    for line in lines.lines() {
        if let Some((what, want)) = line.split_once(" -> ") {
            let told = told_by(alloc, rack, bus, what)?;
            check(rt, line, &told, want);
        }
    }
    Ok(())
}
