// A command of the debugger.
ghost use Rattle.std.specs.Prelude.{◌≡◌, ◌≤◌};
ghost use Rattle.chip_debug.specs.Limits.{count_of, room_of, IsCommand};

/// A command of the debugger, with its numbers.
#[derive(Clone, Copy, Debug, PartialEq, Eq)]
pub enum Command {
    /// Power-on with this byte, and reset.
    Power { fill: u8 },

    /// The key byte of a port.
    Keys { port: u8, byte: u8 },

    /// A pulse for a chip, 0 to 15 in the order of the description.
    Pulse { chip: u8 },

    /// So many instructions, 0 to 1,000,000.
    Step { count: u32 },

    /// The same, up to the first that meets a break.
    Run { count: u32 },

    /// A break where this address comes next.
    BreakAt { at: u16 },

    /// A break where a bus step has this code, 00 to 1F.
    BreakRomc { romc: u8 },

    /// A break where the chip in this socket, 0 to 15, drives or takes.
    BreakChip { socket: u8 },

    /// A break where a chip's counters aren't the probe's.
    BreakApart,

    /// No break any more.
    Clear,

    /// The registers, the scratchpad and the counts.
    ShowRegs,

    /// The counters of the chips and of the probe.
    ShowChips,

    /// So many bytes, 1 to 16, from this address on.
    Mem { at: u16, count: u8 },

    /// Back by so many instructions, 1 to 1,000,000, or to power-on and reset where fewer are done.
    Back { count: u32 },

    /// Back to the last of these that met a break, but for the last one that is done; by all of them where none did.
    BackRun { count: u32 },

    /// The last instruction that stored at this address.
    Stored { at: u16 },
}

impl Command {
    /// The instructions that the command asks for, ahead or back.
    pub(crate) fn count(self) -> u32
        requires { IsCommand self }
        ensures count { result ≡ count_of self }
        ensures most { result ≤ 1000000 }
    {
        match self {
            Command::Step { count }
            | Command::Run { count }
            | Command::Back { count }
            | Command::BackRun { count } => count,
            _ => 0,
        }
    }

    /// How many events the command has come, each of which a session keeps.
    pub(crate) fn room(self) -> usize
        ensures room { result ≡ room_of self }
        ensures most { result ≤ 1 }
    {
        match self {
            Command::Keys { .. } | Command::Pulse { .. } => 1,
            _ => 0,
        }
    }
}
