//! What becomes of an instruction, and where a machine is after it.
ghost use Rattle.std.specs.Prelude.{◌≡◌};

use super::{Heard, Record};
use console_spec::PortWrite;
use data_bus::BusFault;

/// What becomes of an instruction or of reset, with the bus steps that were served.
#[derive(Debug, Drop)]
pub enum Outcome {
    /// It is done; and the port write that one chip or the processor itself took, with the clocks at the instruction's end.
    Done {
        wrote: Option<PortWrite>,
        steps: Record,
    },
    /// A bus step wasn't served, and whether it is a long one.
    Fault {
        fault: BusFault,
        long: bool,
        steps: Record,
    },
    /// At this address stands an opcode that no instruction has.
    Reserved {
        at: u16,
        code: u8,
    },
}

impl Outcome {
    ghost use Rattle.f8_machine.specs.HeardSteps.{HaveBytes};
    ghost use Rattle.f8_machine.specs.MachineState.{steps_in};

    /// The bus steps that were served.
    pub fn steps(&self) -> &[Heard]
        ensures value { result.now ≡ steps_in self.now }
        ensures bytes { HaveBytes result.now }
    {
        match self {
            Outcome::Done { steps, .. } | Outcome::Fault { steps, .. } => steps.as_slice(),
            Outcome::Reserved { .. } => &[],
        }
    }
}

/// Where a machine is.
#[derive(Debug, Drop)]
pub(crate) enum Mode {
    /// Powered, and not reset.
    Powered,
    /// Reset, so that it carries out instructions.
    Running,
    /// It carries out nothing more.
    Stopped(StoppedBy),
}

/// What stopped a machine.
#[derive(Debug, Drop)]
pub(crate) enum StoppedBy {
    Fault { fault: BusFault, long: bool },
    Reserved { at: u16, code: u8 },
}

impl StoppedBy {
    ghost use Rattle.f8_machine.specs.MachineState.{outcome_again};

    /// The outcome of an instruction on a machine that was stopped: that which stopped it, and no step.
    pub(crate) fn outcome(&self) -> Outcome
        ensures { result ≡ outcome_again self.now }
    {
        match self {
            StoppedBy::Fault { fault, long } => Outcome::Fault {
                fault: fault.copy(),
                long: *long,
                steps: Record::new(),
            },
            StoppedBy::Reserved { at, code } => Outcome::Reserved {
                at: *at,
                code: *code,
            },
        }
    }
}
