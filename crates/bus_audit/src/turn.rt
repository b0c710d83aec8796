// Reset and the next instruction, beside the steps that stand next in the trace.
ghost use Rattle.std.specs.Prelude.{◌≡◌, ◌≤◌, ◌<◌, ◌+◌, ◌^◌, length, map, sum_by};
ghost use Rattle.console_spec.specs.Run.{Position};
ghost use Rattle.f8_machine.specs.Fitting.{Fits};
ghost use Rattle.f8_machine.specs.MachineState.{IsReset};
ghost use Rattle.f8_machine.specs.Refinement.{IsPowered, Represents};
ghost use Rattle.f8_machine.specs.declared.outcome.Mode.TheVariants as Mode;
ghost use Rattle.bus_audit.specs.Answers.{steps_of};
ghost use Rattle.bus_audit.specs.Audits.{Hears};
ghost use Rattle.bus_audit.specs.Turns.{Turns, TurnsFirst, told_by};

use super::matching::{Turn, judge};
use super::trace::ToldLine;
use chip_face::{Chip, MOST_CHIPS};
use f8_machine::{Machine, Rack};
use f8_ops::{MOST_INTERRUPTED_PHI, RESET_PHI};

/// Reset, on a machine that was powered.
pub(crate) fn take_reset(machine: &mut Machine, rack: &mut Rack, rest: &[ToldLine]) -> Turn
    requires few { length rack.old.items ≤ MOST_CHIPS }
    requires mode { machine.old.mode ≡ Mode.Powered }
    requires fits { Fits machine.old (map state rack.old.items) }
    ensures turns { (x : Position) → IsPowered machine.old (map state rack.old.items) x
        → TurnsFirst result (Represents machine.new (map state rack.new.items)) x
        (steps_of rest.now) }
    ensures hears { Hears result (length rack.old.items) machine.old.index machine.new.index
        (map state rack.old.items) (map state rack.new.items)
        (sum_by queries rack.old.items) (sum_by queries rack.new.items) (steps_of rest.now) }
    ensures within { told_by result ≤ length rest.now }
    ensures mode { IsReset machine.new.mode }
    ensures clocks { machine.new.phi ≤ machine.old.phi + RESET_PHI }
    ensures chain { machine.new.chain ≡ machine.old.chain }
    ensures fits { Fits machine.new (map state rack.new.items) }
    ensures chips { length rack.new.items ≡ length rack.old.items }
{
    let outcome = machine.reset(rack);
    judge(&outcome, rest)
}

/// The next instruction, on a machine that was reset.
pub(crate) fn take_turn(machine: &mut Machine, rack: &mut Rack, rest: &[ToldLine]) -> Turn
    requires few { length rack.old.items ≤ MOST_CHIPS }
    requires mode { IsReset machine.old.mode }
    requires fits { Fits machine.old (map state rack.old.items) }
    requires phi { machine.old.phi < 2 ^ 62 }
    ensures turns { (x : Position) → Represents machine.old (map state rack.old.items) x
        → Turns result (Represents machine.new (map state rack.new.items)) x (steps_of rest.now) }
    ensures hears { Hears result (length rack.old.items) machine.old.index machine.new.index
        (map state rack.old.items) (map state rack.new.items)
        (sum_by queries rack.old.items) (sum_by queries rack.new.items) (steps_of rest.now) }
    ensures within { told_by result ≤ length rest.now }
    ensures mode { IsReset machine.new.mode }
    ensures clocks { machine.new.phi ≤ machine.old.phi + MOST_INTERRUPTED_PHI }
    ensures chain { machine.new.chain ≡ machine.old.chain }
    ensures fits { Fits machine.new (map state rack.new.items) }
    ensures chips { length rack.new.items ≡ length rack.old.items }
{
    let outcome = machine.instr(rack);
    judge(&outcome, rest)
}
