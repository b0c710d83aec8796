// A session of the debugger on a rack.
ghost use Rattle.std.specs.Prelude.{◌≡◌, ◌≢◌, ◌≤◌, ◌+◌, ℕ, IfOk, length, map, sum_by, OnErr, OnOk};
ghost use Rattle.f8_spec.specs.BusArbitration.{seat_of};
ghost use Rattle.console_spec.specs.RunText.{text_of};
ghost use Rattle.cpu3850.specs.OwnWrites.{LeaveOwnPorts};
ghost use Rattle.data_bus.specs.Racks.{views};
ghost use Rattle.f8_machine.specs.Fitting.{Fits};
ghost use Rattle.f8_machine.specs.Refinement.{AreWhole};
ghost use Rattle.rack_run.specs.Texts.{Puts};
ghost use Rattle.rewind.specs.Asking.{allowed_since_power};
ghost use Rattle.chip_debug.specs.Asking.{commands_allowed, session_allowed};
ghost use Rattle.chip_debug.specs.Carried.{first_scene, scene_by, told_by};
ghost use Rattle.chip_debug.specs.Limits.{AreCommands, most_instructions, rooms_of, total_of};
ghost use Rattle.chip_debug.specs.Scenes.{Scene, reached};
ghost use Rattle.chip_debug.specs.Standing.{IsAt, count_in};
ghost use Rattle.rewind.specs.Standing.{patches};
ghost use Rattle.channel_f.specs.Answers.{debug_answer, debug_due, refusal as spelled_refusal};
ghost use Rattle.channel_f.specs.RackDebugged.{AreOf, Debugs, DebugsUnless, FailedAt};
ghost use Rattle.channel_f.specs.Reports.{Answers, AnswersDue, Reports};

use super::lines_out::put_lines;
use super::playing::refusal;
use super::status::Status;
use chip_debug::{Command, Session};
use chip_face::{Chip, MOST_CHIPS};
use f8_machine::Rack;
use f8_spec::Memory;
use loader::Debugging;
use outside::{Sink, SinkFault};
use rack_run::fit_all;
use std::alloc::Global;

/// The commands of a session that has just begun, one after another.
fn carry_out<K: Sink>(
    session: &mut Session,
    commands: &[Command],
    sink: &mut K,
    rack: &mut Rack,
) -> Result<(), SinkFault>
    requires few { length rack.old.items ≤ MOST_CHIPS }
    requires ranges { AreCommands commands.now }
    requires total { total_of commands.now ≤ most_instructions }
    requires begun { count_in session.old ≡ 0 }
    requires stands { (scene : Scene) × IsAt session.old (map state rack.old.items) scene }
    requires room { rooms_of commands.now ≤ session.old.tape.log.spare }
    requires fits { Fits session.old.tape.machine (map state rack.old.items) }
    ensures told { (scene : Scene) → IsAt session.old (map state rack.old.items) scene →
        Puts result (K.output sink.old) (K.output sink.new) (text_of (told_by commands.now scene)) }
    ensures whole { (scene : Scene) → IsAt session.old (map state rack.old.items) scene →
        OnOk result (AreOf (scene_by commands.now scene) (map state rack.new.items)) }
    ensures failed { (scene : Scene) (before : ℕ) →
        IsAt session.old (map state rack.old.items) scene →
        sum_by queries rack.old.items ≤ before + allowed_since_power (reached scene) →
        OnErr result (FailedAt (K.output sink.old) (K.output sink.new) commands.now scene
        (map state rack.new.items) before (sum_by queries rack.new.items)) }
    ensures asked { (scene : Scene) → IsAt session.old (map state rack.old.items) scene →
        OnOk result (sum_by queries rack.new.items ≤ sum_by queries rack.old.items
        + commands_allowed commands.now scene) }
    ensures patches { patches (map state rack.new.items) ≡ patches (map state rack.old.items) }
    ensures chips { length rack.new.items ≡ length rack.old.items }
{
    for command in commands {
        session.command(command, rack, sink)?;
    }
    Ok(())
}

/// A session on a rack that is fitted for the cartridge. Where memory is wanting for its key bytes and pulses, the rack is as it was, and
/// nothing is written.
fn debug_fitted<K: Sink>(
    alloc: Global,
    asked: &Debugging,
    sink: &mut K,
    rack: &mut Rack,
) -> Result<Status, Memory>
    requires few { length rack.old.items ≤ MOST_CHIPS }
    requires whole { AreWhole (map state rack.old.items) }
    requires ports { LeaveOwnPorts (map seat_of (views (map state rack.old.items))) }
    ensures reports { IfOk result (λ said. Reports (K.output sink.old) (K.output sink.new) said
        Status.Done (told_by asked.now.commands (first_scene asked.now.cart.chips
        asked.now.cart.powers (views (map state rack.old.items))))) }
    ensures whole { IfOk result (λ said. said ≢ Status.Sink → AreOf (scene_by asked.now.commands
        (first_scene asked.now.cart.chips asked.now.cart.powers
        (views (map state rack.old.items)))) (map state rack.new.items)) }
    ensures failed { IfOk result (λ said. said ≡ Status.Sink → FailedAt (K.output sink.old)
        (K.output sink.new) asked.now.commands (first_scene asked.now.cart.chips
        asked.now.cart.powers (views (map state rack.old.items)))
        (map state rack.new.items) (sum_by queries rack.old.items)
        (sum_by queries rack.new.items)) }
    ensures asked { IfOk result (λ said. said ≢ Status.Sink →
        sum_by queries rack.new.items ≤ sum_by queries rack.old.items
        + session_allowed asked.now.commands (first_scene asked.now.cart.chips
        asked.now.cart.powers (views (map state rack.old.items)))) }
    ensures stays { OnErr result (map state rack.new.items ≡ map state rack.old.items) }
    ensures unasked { OnErr result (map queries rack.new.items ≡ map queries rack.old.items) }
    ensures nothing { OnErr result (K.output sink.new ≡ K.output sink.old) }
    ensures patches { patches (map state rack.new.items) ≡ patches (map state rack.old.items) }
{
    let mut session = Session::new(alloc, &asked.cart, &asked.commands, rack)?;
    match carry_out(&mut session, asked.commands.as_slice(), sink, rack) {
        Ok(()) => Ok(Status::Done),
        Err(SinkFault) => Ok(Status::Sink),
    }
}

/// A session on a rack that has a place for the cartridge's chips.
fn fit_and_debug<K: Sink>(alloc: Global, asked: &Debugging, sink: &mut K, rack: &mut Rack) -> Status
    requires few { length rack.old.items ≤ MOST_CHIPS }
    ensures answers { Answers (K.output sink.old) (K.output sink.new) result
        (debug_answer asked.now (map state rack.old.items)) }
    ensures rack { Debugs (K.output sink.old) (K.output sink.new) result asked.now
        (map state rack.old.items) (map state rack.new.items)
        (sum_by queries rack.old.items) (sum_by queries rack.new.items) }
{
    match fit_all(alloc, &asked.cart.chips, rack) {
        Ok(()) => match debug_fitted(alloc, asked, sink, rack) {
            Ok(status) => status,
            Err(Memory) => Status::Memory,
        },
        Err(Memory) => Status::Memory,
    }
}

/// A session on a rack, if it has a place for the cartridge's chips.
pub fn debug<K: Sink>(alloc: Global, asked: &Debugging, sink: &mut K, rack: &mut Rack) -> Status
    ensures answers { AnswersDue (K.output sink.old) (K.output sink.new) result
        (debug_due (map state rack.old.items) asked.now) }
    ensures rack { DebugsUnless (spelled_refusal asked.now.cart.chips (map state rack.old.items))
        (K.output sink.old) (K.output sink.new) result asked.now
        (map state rack.old.items) (map state rack.new.items)
        (sum_by queries rack.old.items) (sum_by queries rack.new.items) }
{
    match refusal(&asked.cart.chips, rack) {
        Some(line) => put_lines(sink, [line].as_slice(), Status::Input),
        None => fit_and_debug(alloc, asked, sink, rack),
    }
}
