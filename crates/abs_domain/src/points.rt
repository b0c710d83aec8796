// Points, by which abstract states are told apart.

/// The most registers of the scratchpad that are tracked (this project's own).
pub const MOST_TRACKED: usize = 8;

/// Where an abstract state stands (this project's own). Points are in order by address, then by return, then by the bytes of the tracked
/// registers, with what is unset first.
#[derive(Clone, Copy, Debug, PartialEq, Eq, PartialOrd, Ord)]
pub struct Point {
    /// The address of the instruction.
    pub at: u16,

    /// The address in the stack register and in every chip's copy of it, and `None` where they may differ.
    pub ret: Option<u16>,

    /// The bytes in the tracked registers, in their order. `None` stands for any byte, and past the last.
    pub split: [Option<u8>; MOST_TRACKED],
}
