// The way of the machine along a trace, with the inputs that are read off it.
ghost use Rattle.std.specs.Prelude.{◌≡◌, ◌≤◌, ◌<◌, ◌+◌, ◌^◌, ℕ, drop, length, map, sum_by};
ghost use Rattle.f8_spec.specs.BusArbitration.{seat_of};
ghost use Rattle.f8_spec.specs.MicroSteps.{reset_steps};
ghost use Rattle.console_spec.specs.Run.{Position};
ghost use Rattle.cpu3850.specs.OwnWrites.{LeaveOwnPorts};
ghost use Rattle.data_bus.specs.Racks.{views};
ghost use Rattle.f8_machine.specs.Fitting.{Fits};
ghost use Rattle.f8_machine.specs.MachineState.{IsReset};
ghost use Rattle.f8_machine.specs.Refinement.{AreWhole, Represents};
ghost use Rattle.pad_script.specs.Reading.{seen};
ghost use Rattle.bus_audit.specs.Answers.{setup_of, steps_of};
ghost use Rattle.bus_audit.specs.Audits.{Beginning, LivesBy, LivesSoFar, beginning};
ghost use Rattle.bus_audit.specs.Turns.{TurnsFirst, TurnsReading, read_begun, told_by};

use super::inputs::{come_behind, come_first, come_own, come_read};
use super::matching::Turn;
use super::trace::ToldLine;
use super::turn::{take_reset, take_turn};
use chip_face::{Chip, MOST_CHIPS, Powers};
use f8_machine::{Chain, Machine, Rack};
use f8_ops::{MOST_INTERRUPTED_PHI, RESET_PHI};
use pad_script::Script;

/// How many bus steps reset has (this project's own, after the Fairchild F8 User's Guide).
const RESET_STEPS: usize = 3;

/// What stands behind the steps of reset.
fn behind_reset(told: &[ToldLine]) -> &[ToldLine]
    ensures { steps_of result.now ≡ drop (length reset_steps) (steps_of told.now) }
{
    if told.len() < RESET_STEPS {
        return &[];
    }
    &told[RESET_STEPS..]
}

/// Power-on, the inputs before reset, and reset.
pub(crate) fn begin(
    chain: Chain,
    powers: &Powers,
    script: &Script,
    told: &[ToldLine],
    rack: &mut Rack,
) -> (Machine, Turn)
    requires few { length rack.old.items ≤ MOST_CHIPS }
    requires whole { AreWhole (map state rack.old.items) }
    requires ports { LeaveOwnPorts (map seat_of (views (map state rack.old.items))) }
    ensures turns { TurnsFirst result.1 (Represents result.0 (map state rack.new.items))
        (read_begun
        (setup_of (views (map state rack.old.items)) chain powers.now (seen script.now))
        (steps_of told.now)) (steps_of told.now) }
    ensures lived { LivesBy result.1
        (beginning script.now.power chain powers.now (steps_of told.now)
        (map state rack.old.items) (sum_by queries rack.old.items)) 0 (length rack.new.items)
        result.0.index (map state rack.new.items) (sum_by queries rack.new.items) }
    ensures within { told_by result.1 ≤ length told.now }
    ensures mode { IsReset result.0.mode }
    ensures clocks { result.0.phi ≤ RESET_PHI }
    ensures chain { result.0.chain ≡ chain }
    ensures fits { Fits result.0 (map state rack.new.items) }
    ensures chips { length rack.new.items ≡ length rack.old.items }
{
    let mut machine = Machine::power(script.power, chain, powers, rack);
    come_own(&mut machine, rack, script.events.as_slice(), 0);
    come_first(&mut machine, rack, behind_reset(told));
    let turn = take_reset(&mut machine, rack, told);
    (machine, turn)
}

/// The next instruction, and the inputs behind it.
pub(crate) fn go_on(
    machine: &mut Machine,
    rack: &mut Rack,
    script: &Script,
    rest: &[ToldLine],
) -> Turn
    requires few { length rack.old.items ≤ MOST_CHIPS }
    requires mode { IsReset machine.old.mode }
    requires fits { Fits machine.old (map state rack.old.items) }
    requires phi { machine.old.phi < 2 ^ 62 }
    ensures turns { (x : Position) → Represents machine.old (map state rack.old.items) x
        → TurnsReading result (seen script.now)
        (Represents machine.new (map state rack.new.items)) x (steps_of rest.now) }
    ensures lived { (first : Beginning) (count : ℕ) → machine.old.chain ≡ first.chain
        → steps_of rest.now ≡ drop count first.trace
        → LivesSoFar first count (length rack.old.items) machine.old.index
        (map state rack.old.items) (sum_by queries rack.old.items)
        → LivesBy result first count (length rack.new.items) machine.new.index
        (map state rack.new.items) (sum_by queries rack.new.items) }
    ensures within { told_by result ≤ length rest.now }
    ensures mode { IsReset machine.new.mode }
    ensures clocks { machine.new.phi ≤ machine.old.phi + MOST_INTERRUPTED_PHI }
    ensures chain { machine.new.chain ≡ machine.old.chain }
    ensures fits { Fits machine.new (map state rack.new.items) }
    ensures chips { length rack.new.items ≡ length rack.old.items }
{
    let before = machine.phi();
    let turn = take_turn(machine, rack, rest);
    if let Turn::Onward { told } = turn {
        come_behind(machine, rack, script, before);
        come_read(machine, rack, &rest[told..]);
    }
    turn
}
