// How a run ends, and what stops it.
use console_spec::Regs;
use data_bus::BusFault;

/// How a run ends: the registers, what stops it, or `None` where all its instructions are done, the instructions done, and their
/// clocks with those of reset, in Φ; and how many writes ports took, and the sum of their bytes.
#[derive(Debug, Drop)]
pub struct Ending {
    pub regs: Regs,
    pub halt: Option<Halt>,
    pub count: u32,
    pub phi: u64,
    pub writes: u32,
    pub bytes: u64,
}

/// What stops a run before its end.
#[derive(Debug, Drop)]
pub enum Halt {
    /// A bus step isn't served.
    Fault(BusFault),
    /// At this address stands an opcode that no instruction has.
    Reserved { at: u16, code: u8 },
}

/// Why a turn of a run doesn't lead on.
#[derive(Debug, Drop)]
pub(crate) enum Cut {
    /// The run stops there.
    Halt(Halt),
    /// The sink failed.
    Sink,
}
