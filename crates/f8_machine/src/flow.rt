//! The flat machine's counters, kept beside the probe's.
ghost use Rattle.std.specs.Prelude.{◌≡◌};

use romc_table::Counters;

/// The flat machine's counters between two instructions: the address of the one that comes next, the stack register and the data
/// counters.
#[derive(Clone, Copy, Debug)]
pub(crate) struct Flow {
    pub(crate) p: u16,
    pub(crate) p1: u16,
    pub(crate) d0: u16,
    pub(crate) d1: u16,
}

impl Flow {
    ghost use Rattle.probe.specs.ProbeState.{ProbeState, probe_counters};
    ghost use Rattle.f8_machine.specs.MachineState.{flow_of, flow_before_fetch};

    /// All at 0, as at power-on.
    pub(crate) fn zero() -> Flow
        ensures { flow_of result ≡ record { p = 0; p1 = 0; d0 = 0; d1 = 0 } }
    {
        Flow {
            p: 0,
            p1: 0,
            d0: 0,
            d1: 0,
        }
    }

    /// The probe's counters, whose program counter is one past the next instruction.
    pub(crate) fn of(counters: Counters) -> Flow
        ensures { (p : ProbeState) → counters ≡ probe_counters p →
            flow_of result ≡ flow_before_fetch p.count }
    {
        Flow {
            p: counters.pc0.wrapping_sub(1),
            p1: counters.pc1,
            d0: counters.dc0,
            d1: counters.dc1.unwrap_or(0),
        }
    }
}
