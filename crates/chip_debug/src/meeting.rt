// Whether an instruction met a break.
ghost use Rattle.std.specs.Prelude.{◌≡◌, ◌≤◌, ◌+◌, ◌&&◌, length, map, sum_by, true};
ghost use Rattle.data_bus.specs.Racks.{views};
ghost use Rattle.probe.specs.ProbeState.{probe_counters};
ghost use Rattle.chip_debug.specs.Asking.{behind_allowed};
ghost use Rattle.chip_debug.specs.Breaks.{are_met, meets_behind as met_behind};

use super::breaks::Breaks;
use super::sockets::are_apart;
use chip_face::{Chip, MOST_CHIPS};
use f8_machine::{Heard, Machine, Rack};

/// A break is met by where the machine and its chips are behind an instruction.
fn meets_behind(breaks: Breaks, machine: &Machine, rack: &mut Rack) -> bool
    requires few { length rack.old.items ≤ MOST_CHIPS }
    ensures met { result ≡ met_behind breaks machine.now.flow.p
        (probe_counters machine.now.probe) machine.now.chain
        (views (map state rack.old.items)) }
    ensures stays { map state rack.new.items ≡ map state rack.old.items }
    ensures asked { sum_by queries rack.new.items ≤ sum_by queries rack.old.items
        + behind_allowed true breaks machine.now.chain }
    ensures chips { length rack.new.items ≡ length rack.old.items }
{
    breaks.meets_address(machine.next_address())
        || (breaks.apart && are_apart(&machine.reference(), machine.chain(), rack))
}

/// An instruction with these bus steps, which led the machine and its chips here, meets a break.
pub(crate) fn is_met(breaks: Breaks, steps: &[Heard], machine: &Machine, rack: &mut Rack) -> bool
    requires few { length rack.old.items ≤ MOST_CHIPS }
    ensures met { result ≡ are_met breaks steps.now machine.now.flow.p
        (probe_counters machine.now.probe) machine.now.chain
        (views (map state rack.old.items)) }
    ensures stays { map state rack.new.items ≡ map state rack.old.items }
    ensures asked { sum_by queries rack.new.items ≤ sum_by queries rack.old.items
        + behind_allowed true breaks machine.now.chain }
    ensures chips { length rack.new.items ≡ length rack.old.items }
{
    breaks.meets_steps(steps) || meets_behind(breaks, machine, rack)
}

/// Breaks are heeded, and the instruction meets one. Where they aren't, nothing is looked at.
pub(crate) fn is_heeded(
    heeds: bool,
    breaks: Breaks,
    steps: &[Heard],
    machine: &Machine,
    rack: &mut Rack,
) -> bool
    requires few { length rack.old.items ≤ MOST_CHIPS }
    ensures met { result ≡ (heeds && are_met breaks steps.now machine.now.flow.p
        (probe_counters machine.now.probe) machine.now.chain
        (views (map state rack.old.items))) }
    ensures stays { map state rack.new.items ≡ map state rack.old.items }
    ensures asked { sum_by queries rack.new.items ≤ sum_by queries rack.old.items
        + behind_allowed heeds breaks machine.now.chain }
    ensures chips { length rack.new.items ≡ length rack.old.items }
{
    heeds && is_met(breaks, steps, machine, rack)
}
