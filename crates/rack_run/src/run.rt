// A run by a script, instruction by instruction, by any player.
ghost use Rattle.std.specs.Prelude.{◌≡◌, ◌≤◌, ◌<◌, ◌+◌, ◌^◌, length, map, sum_by};
ghost use Rattle.std.specs.Prelude.{IfOk, IfErr, OnOk, OnErr};
ghost use Rattle.console_spec.specs.Processor.{State};
ghost use Rattle.console_spec.specs.Run.{Position};
ghost use Rattle.pad_script.specs.Limits.{HasLimits};
ghost use Rattle.pad_script.specs.Reading.{seen};
ghost use Rattle.rack_run.specs.Asking.{AsksOn, AsksWithin, tried_codes, turn_codes};
ghost use Rattle.rack_run.specs.Endings.{Tells, stop_at};
ghost use Rattle.rack_run.specs.Progressing.{Keeps};
ghost use Rattle.rack_run.specs.Turns.{readout_of, rest_on, GoesOn, CutsAt, RunsOut, RunsShort};

use super::detail::Detail;
use super::ending::{Cut, Ending, Halt};
use super::events::happen_behind;
use super::limits::most_instructions;
use super::player::Player;
use super::progress::Progress;
use super::telling::tell_end;
use chip_face::Chip;
use f8_machine::Rack;
use f8_ops::{MOST_INTERRUPTED_PHI, RESET_PHI};
use outside::{Sink, SinkFault};
use pad_script::Script;

/// How the run ends where this stops it.
pub(crate) fn ending<P: Player>(player: &P, progress: &Progress, halt: Option<Halt>) -> Ending
    ensures { (s : State) → P.readout player.now ≡ readout_of s → Keeps progress.now s
        → Tells result s (stop_at halt) }
{
    Ending {
        regs: player.registers(),
        halt,
        count: progress.count(),
        phi: player.clocks(),
        writes: progress.writes(),
        bytes: progress.bytes(),
    }
}

/// The next instruction, told, with what comes at its end; or what cuts the run short.
fn turn<P: Player, K: Sink>(
    player: &mut P,
    rack: &mut Rack,
    sink: &mut K,
    progress: &mut Progress,
    script: &Script,
    detail: Detail,
) -> Result<(), Cut>
    requires few { length rack.old.items ≤ P.most_chips }
    requires ready { P.ready player.old }
    requires fits { P.fits player.old (map state rack.old.items) }
    requires bounded { (P.readout player.old).phi + MOST_INTERRUPTED_PHI < 2 ^ 46 }
    requires phi { progress.old.phi ≡ (P.readout player.old).phi }
    requires count { progress.old.count + 1 < 2 ^ 32 }
    ensures goes { (x : Position) → P.at player.old (map state rack.old.items) x
        → Keeps progress.old x.flat.state
        → OnOk result (GoesOn detail (P.way detail) (seen script.now)
        (P.at player.new (map state rack.new.items)) progress.new
        (map state rack.old.items) (map state rack.new.items)
        (K.output sink.old) (K.output sink.new) x) }
    ensures cut { (x : Position) → P.at player.old (map state rack.old.items) x
        → Keeps progress.old x.flat.state
        → IfErr result (λ cut. CutsAt detail (P.way detail) (seen script.now)
        (P.readout player.new) progress.new
        (map state rack.old.items) (map state rack.new.items)
        (K.output sink.old) (K.output sink.new) x cut) }
    ensures asked { (x : Position) → P.at player.old (map state rack.old.items) x
        → OnOk result (AsksOn
        (P.allowed (length rack.old.items) player.old)
        (P.allowed (length rack.old.items) player.new)
        (sum_by queries rack.old.items) (sum_by queries rack.new.items)
        (turn_codes (P.way detail) x)) }
    ensures asked_cut { (x : Position) → P.at player.old (map state rack.old.items) x
        → OnErr result (AsksWithin (P.allowed (length rack.old.items) player.old)
        (sum_by queries rack.old.items) (sum_by queries rack.new.items)
        (turn_codes (P.way detail) x)) }
    ensures clocks { (P.readout player.new).phi ≤ (P.readout player.old).phi
        + MOST_INTERRUPTED_PHI }
    ensures phi { OnOk result (progress.new.phi ≡ (P.readout player.new).phi) }
    ensures count { OnOk result (progress.new.count ≡ progress.old.count + 1) }
    ensures ready { P.ready player.new }
    ensures fits { P.fits player.new (map state rack.new.items) }
    ensures chips { length rack.new.items ≡ length rack.old.items }
{
    let wrote = player.advance(rack, sink, detail)?;
    let Ok(fallen) = tell_end(sink, progress, script, detail, wrote, player.clocks()) else {
        return Err(Cut::Sink);
    };
    happen_behind(player, rack, progress, script, fallen);
    Ok(())
}

/// The instructions of a run, by a player that was just reset.
pub(crate) fn run<P: Player, K: Sink>(
    player: &mut P,
    rack: &mut Rack,
    sink: &mut K,
    progress: &mut Progress,
    script: &Script,
    detail: Detail,
) -> Result<Ending, SinkFault>
    requires few { length rack.old.items ≤ P.most_chips }
    requires ready { P.ready player.old }
    requires fits { P.fits player.old (map state rack.old.items) }
    requires bounded { (P.readout player.old).phi ≤ RESET_PHI }
    requires phi { progress.old.phi ≡ (P.readout player.old).phi }
    requires count { progress.old.count ≡ 0 }
    requires limits { HasLimits script.now.end }
    ensures out { (x : Position) → P.at player.old (map state rack.old.items) x
        → Keeps progress.old x.flat.state
        → IfOk result (λ ending. RunsOut detail (P.way detail) (seen script.now) ending
        (map state rack.old.items) (map state rack.new.items)
        (K.output sink.old) (K.output sink.new) x) }
    ensures short { (x : Position) → P.at player.old (map state rack.old.items) x
        → Keeps progress.old x.flat.state
        → OnErr result (RunsShort
        (AsksWithin (P.allowed (length rack.old.items) player.old)
        (sum_by queries rack.old.items) (sum_by queries rack.new.items))
        detail (P.way detail) (seen script.now)
        (map state rack.old.items) (map state rack.new.items)
        (K.output sink.old) (K.output sink.new) x) }
    ensures asked { (x : Position) → P.at player.old (map state rack.old.items) x
        → Keeps progress.old x.flat.state
        → OnOk result (AsksWithin (P.allowed (length rack.old.items) player.old)
        (sum_by queries rack.old.items) (sum_by queries rack.new.items)
        (tried_codes (rest_on (P.way detail) (seen script.now) x))) }
    ensures chips { length rack.new.items ≡ length rack.old.items }
{
    for _ in 0..most_instructions(script.end) {
        if progress.is_over(script.end) {
            return Ok(ending(player, progress, None));
        }
        match turn(player, rack, sink, progress, script, detail) {
            Ok(()) => {}
            Err(Cut::Halt(halt)) => return Ok(ending(player, progress, Some(halt))),
            Err(Cut::Sink) => return Err(SinkFault),
        }
    }
    Ok(ending(player, progress, None))
}
