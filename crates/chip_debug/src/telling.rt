// What a session tells. Each line is one put.
ghost use Rattle.std.specs.Prelude.{◌≡◌, ◌≤◌, ◌<◌, ◌+◌, ◌∷◌, length, map, option_map, slice_get, sum_by, Some};
ghost use Rattle.f8_spec.specs.ChipState.{ChipState};
ghost use Rattle.console_spec.specs.RunText.{stop_line, text_of};
ghost use Rattle.data_bus.specs.Racks.{views};
ghost use Rattle.rack_run.specs.Endings.{stop_of};
ghost use Rattle.rack_run.specs.Texts.{Puts};
ghost use Rattle.chip_debug.specs.Breaks.{fitted, own_counters};
ghost use Rattle.chip_debug.specs.Carried.{break_lines, start_lines, halt_lines, scratchpad_lines, registers_lines};
ghost use Rattle.chip_debug.specs.Carried.{fitted_lines, chips_lines};
ghost use Rattle.chip_debug.specs.DebugText.{at_line as spelled_at, ran_line as spelled_ran, chip_line as spelled_chip};

use super::session::Ran;
use super::session_lines::{at_line, break_line, chip_line, probe_line, ran_line, ready_line};
use super::sockets::{counters_in, kind_in};
use chip_face::{Chip, Counters, MOST_CHIPS};
use console_spec::Regs;
use f8_machine::{Chain, Rack};
use outside::{Sink, SinkFault};
use rack_run::Halt;
use report::{Line, regs_line, scratch_line, stop_fault_line, stop_reserved_line, total_line};

/// The line of what stopped a session.
fn halt_line(halt: &Halt) -> Line
    ensures { result ≡ stop_line (stop_of halt.now) }
{
    match halt {
        Halt::Fault(fault) => stop_fault_line(fault),
        Halt::Reserved { at, code } => stop_reserved_line(*at, *code),
    }
}

/// What stopped the session at power-on or reset, or that it is ready.
pub(crate) fn put_start<K: Sink>(sink: &mut K, halt: &Option<Halt>) -> Result<(), SinkFault>
    ensures { Puts result (K.output sink.old) (K.output sink.new)
        (text_of (start_lines (option_map stop_of halt.now))) }
{
    match halt {
        None => sink.put(ready_line().as_bytes()),
        Some(halt) => sink.put(halt_line(halt).as_bytes()),
    }
}

/// What ended some instructions: what stopped the session, or a break.
fn put_halt<K: Sink>(sink: &mut K, halt: &Option<Halt>, broke: bool) -> Result<(), SinkFault>
    ensures { Puts result (K.output sink.old) (K.output sink.new)
        (text_of (halt_lines (option_map stop_of halt.now) broke)) }
{
    match halt {
        Some(halt) => sink.put(halt_line(halt).as_bytes()),
        None if broke => sink.put(break_line().as_bytes()),
        None => Ok(()),
    }
}

/// The instruction to which the session went back, and that it met a break, if it was looked for and did.
pub(crate) fn put_back<K: Sink>(sink: &mut K, place: u32, broke: bool) -> Result<(), SinkFault>
    ensures { Puts result (K.output sink.old) (K.output sink.new)
        (text_of (spelled_at place ∷ break_lines broke)) }
{
    sink.put(at_line(place).as_bytes())?;
    if broke {
        sink.put(break_line().as_bytes())?;
    }
    Ok(())
}

/// How many instructions were done, and what ended them.
pub(crate) fn put_going<K: Sink>(
    sink: &mut K,
    ran: Ran,
    halt: &Option<Halt>,
) -> Result<(), SinkFault>
    ensures { Puts result (K.output sink.old) (K.output sink.new)
        (text_of (spelled_ran ran.count ∷ halt_lines (option_map stop_of halt.now) ran.broke)) }
{
    sink.put(ran_line(ran.count).as_bytes())?;
    put_halt(sink, halt, ran.broke)
}

/// The rows of the scratchpad.
fn put_scratchpad<K: Sink>(sink: &mut K, regs: &Regs) -> Result<(), SinkFault>
    ensures { Puts result (K.output sink.old) (K.output sink.new)
        (text_of (scratchpad_lines regs.now)) }
{
    for row in 0..4 {
        sink.put(scratch_line(regs, row).as_bytes())?;
    }
    Ok(())
}

/// The registers, the scratchpad, the instructions done, and their clocks with those of reset, in Φ.
pub(crate) fn put_regs<K: Sink>(
    sink: &mut K,
    regs: &Regs,
    count: u32,
    phi: u64,
) -> Result<(), SinkFault>
    requires { regs.now.isar < 64 }
    ensures { Puts result (K.output sink.old) (K.output sink.new)
        (text_of (registers_lines regs.now count phi)) }
{
    sink.put(regs_line(regs).as_bytes())?;
    put_scratchpad(sink, regs)?;
    sink.put(total_line(count, phi).as_bytes())
}

/// The line of the chip in a socket, which is asked once at most.
fn line_of_chip(rack: &mut Rack, socket: u8) -> Line
    requires within { socket < length rack.old.items }
    ensures line { (s : ChipState) → slice_get (map state rack.old.items) socket ≡ Some s →
        result ≡ spelled_chip socket s.view.kind (own_counters s.view) }
    ensures stays { map state rack.new.items ≡ map state rack.old.items }
    ensures asked { sum_by queries rack.new.items ≤ sum_by queries rack.old.items + 1 }
    ensures chips { length rack.new.items ≡ length rack.old.items }
{
    let kind = kind_in(rack, socket);
    chip_line(socket, kind, counters_in(rack, socket))
}

/// The chips described, by their sockets. Each is asked once at most.
fn put_fitted<K: Sink>(sink: &mut K, chain: &Chain, rack: &mut Rack) -> Result<(), SinkFault>
    requires few { length rack.old.items ≤ MOST_CHIPS }
    ensures puts { Puts result (K.output sink.old) (K.output sink.new)
        (text_of (fitted_lines (fitted chain.now (views (map state rack.old.items))))) }
    ensures stays { map state rack.new.items ≡ map state rack.old.items }
    ensures asked { sum_by queries rack.new.items ≤ sum_by queries rack.old.items
        + length rack.old.items }
    ensures chips { length rack.new.items ≡ length rack.old.items }
{
    for socket in 0..rack.len() as u8 {
        if chain.contains(socket) {
            sink.put(line_of_chip(rack, socket).as_bytes())?;
        }
    }
    Ok(())
}

/// The counters of the chips described, and then those of the probe.
pub(crate) fn put_chips<K: Sink>(
    sink: &mut K,
    chain: &Chain,
    reference: &Counters,
    rack: &mut Rack,
) -> Result<(), SinkFault>
    requires few { length rack.old.items ≤ MOST_CHIPS }
    ensures puts { Puts result (K.output sink.old) (K.output sink.new)
        (text_of (chips_lines reference.now chain.now (views (map state rack.old.items)))) }
    ensures stays { map state rack.new.items ≡ map state rack.old.items }
    ensures asked { sum_by queries rack.new.items ≤ sum_by queries rack.old.items
        + length rack.old.items }
    ensures chips { length rack.new.items ≡ length rack.old.items }
{
    put_fitted(sink, chain, rack)?;
    sink.put(probe_line(reference).as_bytes())
}
