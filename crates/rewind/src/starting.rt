// Power-on and reset of a machine on its rack.
ghost use Rattle.std.specs.Prelude.{◌≡◌, ◌≤◌, ◌+◌, List, length, map, sum_by};
ghost use Rattle.f8_spec.specs.BusArbitration.{seat_of};
ghost use Rattle.f8_spec.specs.ChipState.{ChipView};
ghost use Rattle.cpu3850.specs.OwnWrites.{LeaveOwnPorts};
ghost use Rattle.data_bus.specs.Racks.{views};
ghost use Rattle.f8_machine.specs.Fitting.{Fits};
ghost use Rattle.f8_machine.specs.MachineState.{IsReset};
ghost use Rattle.f8_machine.specs.Refinement.{AreWhole};
ghost use Rattle.rewind.specs.Asking.{allowed_since_power};
ghost use Rattle.rewind.specs.PowerAlike.{PowerAlike};
ghost use Rattle.rewind.specs.Reached.{started};
ghost use Rattle.rewind.specs.Standing.{HasReached, patches};
ghost use Rattle.rewind.specs.Tape.{IsStartOf};

use chip_face::{Chip, MOST_CHIPS, Powers};
use f8_machine::{Chain, Machine, Outcome, Rack};
use f8_ops::RESET_PHI;
use rack_run::powers_law;

/// Power-on with this byte, each chip described as is said of it, and reset, with its outcome.
pub(crate) fn start_machine(
    fill: u8,
    chain: Chain,
    powers: &Powers,
    rack: &mut Rack,
) -> (Machine, Outcome)
    requires few { length rack.old.items ≤ MOST_CHIPS }
    ensures there { AreWhole (map state rack.old.items) →
        LeaveOwnPorts (map seat_of (views (map state rack.old.items))) →
        HasReached result.0 (map state rack.new.items)
        (started fill chain powers.now (views (map state rack.old.items))) }
    ensures outcome { AreWhole (map state rack.old.items) →
        LeaveOwnPorts (map seat_of (views (map state rack.old.items))) →
        IsStartOf result.1 (started fill chain powers.now (views (map state rack.old.items))) }
    ensures alike { (first : List ChipView) → PowerAlike (views (map state rack.old.items)) first →
        PowerAlike (views (map state rack.new.items)) first }
    ensures asked { AreWhole (map state rack.old.items) →
        LeaveOwnPorts (map seat_of (views (map state rack.old.items))) →
        sum_by queries rack.new.items ≤ sum_by queries rack.old.items
        + allowed_since_power (started fill chain powers.now (views (map state rack.old.items))) }
    ensures reset { IsReset result.0.mode }
    ensures clocks { result.0.phi ≤ RESET_PHI }
    ensures chain { result.0.chain ≡ chain }
    ensures patches { patches (map state rack.new.items) ≡ patches (map state rack.old.items) }
    ensures fits { Fits result.0 (map state rack.new.items) }
    ensures chips { length rack.new.items ≡ length rack.old.items }
{
    powers_law(powers);
    let mut machine = Machine::power(fill, chain, powers, rack);
    let outcome = machine.reset(rack);
    (machine, outcome)
}
