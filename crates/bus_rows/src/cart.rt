// Worked carts as texts. A cart is a title and then lines of words, whose numbers are hexadecimal:
//
//   rom ADDRESS BYTE..                         bytes of the 3851s behind it, which are FF elsewhere
//   3851 SOCKET START BASE PORTS VECTOR        a chip, and the address in every counter of it at power-on
//   3853-rom SOCKET START PAGE                 or 3853-ram, or 3853-void; a page of ROM is 2B throughout
//   3861 SOCKET START PORTS VECTOR
//   CODE BYTE -> TOLD                          a long bus step, the byte that the CPU places, and what is told of the step
//   CODE BYTE SOCKET -> TOLD                   the same, where the chip in the socket is acknowledged
//   asks SOCKET -> TOLD                        whether a chip asks for an interrupt
//   pulse SOCKET -> TOLD                       the same before a pulse to the chip and behind it
//   probe = TOLD                               at the end, the counters of the probe
//   counters SOCKET = TOLD                     or of a chip
//   byte SOCKET ADDRESS = TOLD                 the byte that a chip holds
//   latch SOCKET PORT = TOLD                   the latch of a data port
//
// A socket that no line names has a blank chip, whose counters begin at 0.
ghost use Rattle.std.specs.Prelude.{map, IfOk};
ghost use Rattle.bus_rows.specs.Indexed.{FitsIndexed};

use super::bus::{Bus, WAYS, Way};
use super::fitting::{Fitting, clear};
use super::questions::{told_counters, told_of};
use super::walk::walk;
use super::words::check;
use data_bus::Rack;
use std::alloc::Global;
use std::process::Abort;
use std::test::Fail;

/// Fits the chips of a cart, and powers them on.
pub(crate) fn seat(alloc: Global, rack: &mut Rack, way: Way, lines: &str) -> Result<Bus, Fail>
    ensures fits { IfOk result (λ bus. FitsIndexed bus.index bus.probe (map state rack.new.items)) }
{
    clear(alloc, rack)?;
    let mut fitting = Fitting::new();
    for line in lines.lines() {
        if !line.contains(" -> ") && !line.contains(" = ") {
            fitting.read(alloc, rack, line)?;
        }
    }
    if rack.len() > 16 {
        return Err("more than 16 chips".into());
    }
    Ok(Bus::of(rack, &fitting.starts, way))
}

/// What the probe or a chip tells.
fn told_at_end(alloc: Global, rack: &mut Rack, bus: &Bus, what: &str) -> Result<String, Fail> {
    match what {
        "probe" => told_counters(alloc, bus.probe.counters()),
        _ => told_of(alloc, rack, what),
    }
}

/// What stands at the end.
fn check_ends(
    rt: &impl Abort,
    alloc: Global,
    rack: &mut Rack,
    bus: &Bus,
    lines: &str,
) -> Result<(), Fail> {
    for line in lines.lines() {
        if let Some((what, want)) = line.split_once(" = ") {
            let told = told_at_end(alloc, rack, bus, what)?;
            check(rt, line, &told, want);
        }
    }
    Ok(())
}

fn play(rt: &impl Abort, alloc: Global, rack: &mut Rack, way: Way, cart: &str) -> Result<(), Fail> {
    let (_title, lines) = cart.split_once('\n').ok_or(cart)?;
    let mut bus = seat(alloc, rack, way, lines)?;
    walk(rt, alloc, rack, &mut bus, lines)?;
    check_ends(rt, alloc, rack, &bus, lines)
}

/// Plays the carts of a text, which blank lines part, with every chip asked and by an index.
pub(crate) fn play_all(
    rt: &impl Abort,
    alloc: Global,
    rack: &mut Rack,
    carts: &str,
) -> Result<(), Fail> {
    for cart in carts.split("\n\n") {
        for way in WAYS {
            play(rt, alloc, rack, way, cart)?;
        }
    }
    Ok(())
}
