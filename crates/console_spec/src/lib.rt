//! What a program and its run are: the definitions that the contracts of the crates above cite, in `specs/`, and the plain types
//! that those definitions name. There is no code here beyond the types and a size.
#![tactic(auto)]

/// How many bytes the scratchpad has, one a register (Fairchild F8 User's Guide).
pub const SCRATCHPAD_SIZE: usize = 64;

/// The registers as a run tells them: `p` is the address of the instruction that comes next, `p1` the stack register, `d0` and
/// `d1` the data counters, `a` the accumulator, `isar` below 64, `w` the status word, and the bytes of the scratchpad.
#[derive(Clone, Copy, Debug)]
pub struct Regs {
    pub p: u16,
    pub p1: u16,
    pub d0: u16,
    pub d1: u16,
    pub a: u8,
    pub isar: u8,
    pub w: u8,
    pub scratch: [u8; SCRATCHPAD_SIZE],
}

/// What an address is to the chips of a program. That an address which several chips hold is none's is this project's own.
#[derive(Clone, Copy, Debug, PartialEq, Eq)]
pub enum Sort {
    /// One chip holds it, in a page of ROM.
    Rom,
    /// One chip holds it, in a page of RAM.
    Ram,
    /// One chip holds it, in a page where there is nothing.
    Void,
    /// No chip holds it.
    Nothing,
    /// Two or more chips hold it.
    Shared,
}

/// Who drove the byte of a bus step (Mostek 3850, 3851 and 3853 data sheets).
#[derive(Clone, Copy, Debug, PartialEq, Eq)]
pub enum Who {
    /// The 3850.
    Cpu,
    /// The chip in this socket.
    Socket(u8),
    /// Nobody: the byte is 00.
    Nobody,
}

/// A write to an output port that is taken. `phi` is the count of clocks, in Φ, at the end of the instruction that writes, and `byte`
/// is as the processor puts it on the data bus (Fairchild F8 User's Guide, `OUT` and `OUTS`).
#[derive(Clone, Copy, Debug, PartialEq, Eq)]
pub struct PortWrite {
    pub phi: u64,
    pub port: u8,
    pub byte: u8,
}

/// What is known of a cartridge before it runs (this project's own).
#[derive(Clone, Copy, Debug, PartialEq, Eq)]
pub enum VerdictWord {
    /// Every bus step of every run is served.
    Whole,

    /// Every bus step of every run is served, but that a step at the data counter may have no chip that drives.
    Agreed,

    /// Neither was found.
    NoVerdict,
}

/// What comes from outside at a frame (this project's own).
#[derive(Clone, Copy, Debug, PartialEq, Eq)]
pub enum Event {
    /// The key byte of a port becomes this.
    Keys { port: u8, byte: u8 },

    /// A pulse at the external interrupt pin of a chip, 0 to 15 in the order of the description.
    Pulse { chip: u8 },
}

/// An event and the frame at which it comes, 0 to 599.
#[derive(Clone, Copy, Debug, PartialEq, Eq)]
pub struct At {
    pub frame: u32,
    pub event: Event,
}

/// When a run ends (this project's own).
#[derive(Clone, Copy, Debug, PartialEq, Eq)]
pub enum End {
    /// At this frame, 1 to 600.
    Frames(u32),

    /// After so many instructions, 0 to 1,000,000.
    Steps(u32),
}
