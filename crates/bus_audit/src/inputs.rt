// The inputs that come to the machine: those that are read off the trace, and the script's key bytes of ports 0 and 1.
ghost use Rattle.std.specs.Prelude.{◌≡◌, ◌≤◌, ◌∷◌, [], filter, length, map};
ghost use Rattle.console_spec.specs.Scripts.{events_at};
ghost use Rattle.f8_machine.specs.Fitting.{Fits};
ghost use Rattle.pad_script.specs.Reading.{seen};
ghost use Rattle.bus_audit.specs.Answers.{steps_of};
ghost use Rattle.bus_audit.specs.Choices.{interrupting_socket, place_in_chain};
ghost use Rattle.bus_audit.specs.FreeRuns.{is_own_key, own_fallen};
ghost use Rattle.bus_audit.specs.Inputs.{Comes, events_in, frame_between};
ghost use Rattle.bus_audit.specs.ReadInputs.{from_end, read_inputs, read_key, read_pulse};

use super::step::TraceWhat;
use super::trace::ToldLine;
use chip_face::{Chip, MOST_CHIPS};
use console_board::FRAME_CLOCKS;
use console_spec::{At, Event, Who};
use f8_machine::{Chain, Machine, Rack};
use f8_ops::OWN_PORTS;
use pad_script::Script;
use romc_table::Romc;

// ---- what is read

/// The key byte that the steps which stand next tell of: their second one reads a port, and the first one tells which. A port of the
/// processor's own gets none.
fn told_key(rest: &[ToldLine]) -> Option<Event>
    ensures { events_in result ≡ read_key (steps_of rest.now) }
{
    let [first, second, ..] = rest else {
        return None;
    };
    if second.step.romc != Romc::READ_PORT {
        return None;
    }
    match (first.step.what, second.step.what) {
        (TraceWhat::Byte { byte: port, .. }, TraceWhat::Byte { byte, .. }) if port >= OWN_PORTS => {
            Some(Event::Keys { port, byte })
        }
        _ => None,
    }
}

/// The socket of the chip that drives the low half of the vector, where the steps of an interrupt stand first.
fn interrupting(rest: &[ToldLine]) -> Option<u8>
    ensures { result ≡ interrupting_socket (steps_of rest.now) }
{
    let [first, second, third, ..] = rest else {
        return None;
    };
    if first.step.romc != Romc::ACKNOWLEDGE
        || second.step.romc != Romc::IDLE
        || third.step.romc != Romc::VECTOR_LOW
    {
        return None;
    }
    match third.step.what {
        TraceWhat::Byte {
            who: Who::Socket(socket),
            ..
        } => Some(socket),
        _ => None,
    }
}

/// The same at the end of the instruction whose steps stand next.
fn interrupting_at_end(rest: &[ToldLine]) -> Option<u8>
    ensures { result ≡ interrupting_socket (from_end (steps_of rest.now)) }
{
    for (at, told) in rest.iter().enumerate() {
        let romc = told.step.romc;
        if romc == Romc::FETCH || romc == Romc::ACKNOWLEDGE {
            return interrupting(&rest[at..]);
        }
    }
    None
}

/// A socket's place among those of the chips described.
fn place_of(chain: &[u8], socket: u8) -> Option<u8>
    requires { length chain.now ≤ MOST_CHIPS }
    ensures { result ≡ place_in_chain socket chain.now }
{
    for (place, held) in chain.iter().enumerate() {
        if *held == socket {
            return Some(place as u8);
        }
    }
    None
}

/// The pulse that the steps which stand next tell of: at the chip whose interrupt ends their instruction.
fn told_pulse(chain: &Chain, rest: &[ToldLine]) -> Option<Event>
    ensures { events_in result ≡ read_pulse chain.now (steps_of rest.now) }
{
    let socket = interrupting_at_end(rest)?;
    let chip = place_of(chain.as_slice(), socket)?;
    Some(Event::Pulse { chip })
}

/// The key byte of port 0 or 1 that an event is, where it comes at a frame.
fn own_key(at: At, frame: u64) -> Option<Event>
    ensures { events_in result ≡ filter is_own_key (events_at frame (at ∷ [])) }
{
    match at.event {
        Event::Keys { port, .. } if port < OWN_PORTS && u64::from(at.frame) == frame => {
            Some(at.event)
        }
        _ => None,
    }
}

// ---- what comes

/// An input comes, if there is one.
fn come(machine: &mut Machine, rack: &mut Rack, event: Option<Event>)
    requires few { length rack.old.items ≤ MOST_CHIPS }
    requires fits { Fits machine.old (map state rack.old.items) }
    ensures comes { Comes machine.old machine.new
        (map state rack.old.items) (map state rack.new.items) (events_in event) }
    ensures fits { Fits machine.new (map state rack.new.items) }
    ensures asked { map queries rack.new.items ≡ map queries rack.old.items }
    ensures chips { length rack.new.items ≡ length rack.old.items }
{
    match event {
        Some(Event::Keys { port, byte }) => machine.keys(rack, port, byte),
        Some(Event::Pulse { chip }) => machine.pulse(rack, chip),
        None => {}
    }
}

/// The key byte comes that is read of the steps which stand next. So it may before reset, where no pulse is taken.
pub(crate) fn come_first(machine: &mut Machine, rack: &mut Rack, rest: &[ToldLine])
    requires few { length rack.old.items ≤ MOST_CHIPS }
    requires fits { Fits machine.old (map state rack.old.items) }
    ensures comes { Comes machine.old machine.new
        (map state rack.old.items) (map state rack.new.items) (read_key (steps_of rest.now)) }
    ensures fits { Fits machine.new (map state rack.new.items) }
    ensures asked { map queries rack.new.items ≡ map queries rack.old.items }
    ensures chips { length rack.new.items ≡ length rack.old.items }
{
    come(machine, rack, told_key(rest));
}

/// What is read of the steps that stand next comes: a key byte and a pulse.
pub(crate) fn come_read(machine: &mut Machine, rack: &mut Rack, rest: &[ToldLine])
    requires few { length rack.old.items ≤ MOST_CHIPS }
    requires fits { Fits machine.old (map state rack.old.items) }
    ensures comes { Comes machine.old machine.new
        (map state rack.old.items) (map state rack.new.items)
        (read_inputs machine.old.chain (steps_of rest.now)) }
    ensures fits { Fits machine.new (map state rack.new.items) }
    ensures asked { map queries rack.new.items ≡ map queries rack.old.items }
    ensures chips { length rack.new.items ≡ length rack.old.items }
{
    come(machine, rack, told_key(rest));
    let pulse = told_pulse(machine.chain(), rest);
    come(machine, rack, pulse);
}

/// The script's key bytes of ports 0 and 1 come that are due at a frame.
pub(crate) fn come_own(machine: &mut Machine, rack: &mut Rack, events: &[At], frame: u64)
    requires few { length rack.old.items ≤ MOST_CHIPS }
    requires fits { Fits machine.old (map state rack.old.items) }
    ensures comes { Comes machine.old machine.new
        (map state rack.old.items) (map state rack.new.items)
        (filter is_own_key (events_at frame events.now)) }
    ensures fits { Fits machine.new (map state rack.new.items) }
    ensures asked { map queries rack.new.items ≡ map queries rack.old.items }
    ensures chips { length rack.new.items ≡ length rack.old.items }
{
    for at in events {
        come(machine, rack, own_key(*at, frame));
    }
}

/// Behind an instruction come those of the frame that falls at its end. `before` is the count of clocks before it, in Φ.
pub(crate) fn come_behind(machine: &mut Machine, rack: &mut Rack, script: &Script, before: u64)
    requires few { length rack.old.items ≤ MOST_CHIPS }
    requires fits { Fits machine.old (map state rack.old.items) }
    ensures comes { Comes machine.old machine.new
        (map state rack.old.items) (map state rack.new.items)
        (own_fallen (seen script.now) (frame_between before machine.old.phi)) }
    ensures fits { Fits machine.new (map state rack.new.items) }
    ensures asked { map queries rack.new.items ≡ map queries rack.old.items }
    ensures chips { length rack.new.items ≡ length rack.old.items }
{
    let frame = machine.phi() / FRAME_CLOCKS;
    if frame != before / FRAME_CLOCKS {
        come_own(machine, rack, script.events.as_slice(), frame);
    }
}
