// An entry: an address and a return, with the values that each part may have there.
ghost use Rattle.std.specs.Prelude.{◌≡◌, ◌<◌, All, length};
ghost use Rattle.std.specs.Option.{ForSome};

use abs_domain::{Bit, SCRATCHPAD_SIZE};
use arrayvec::ArrayVec;
use value_sets::{ByteSet, WordSet};

/// The numbers that ISAR may have: at most 64, each below 64.
pub type IsarSet = ArrayVec<u8, SCRATCHPAD_SIZE>;

/// What may be at an instruction's beginning. An entry stands for every concrete state at its address of which each part has a value that
/// the entry gives it, and where the facts hold that it states (this project's own).
#[derive(Debug, Drop)]
pub struct Entry {
    /// The address of the instruction.
    pub at: u16,

    /// The address in the stack register and in every chip's copy of it, and `None` where they may differ.
    pub ret: Option<u16>,

    /// The accumulator.
    pub a: ByteSet,

    /// ISAR.
    pub isar: IsarSet,

    /// The status word, from bit 0 on: sign, carry, zero, overflow and the interrupt control bit. One that is any may be either.
    pub w: [Bit; 5],

    /// The data counter D0.
    pub d0: WordSet,

    /// The second data counter, D1.
    pub d1: WordSet,

    /// The DC0 of every 3851.
    pub c: WordSet,

    /// The DC0 of every 3853 is D0.
    pub s0: bool,

    /// The DC1 of every 3853 is D1.
    pub s1: bool,

    /// The DC0 of every 3851 is D0.
    pub p0: bool,

    /// The DC0 of every 3851 is D1.
    pub p1: bool,

    /// The register of the scratchpad, below 64, that holds the accumulator's byte.
    pub same: Option<u8>,

    /// The scratchpad.
    pub regs: [ByteSet; SCRATCHPAD_SIZE],

    pub ghost all_registers: { length regs ≡ 64 },
    pub ghost isar_numbers: { All (λ number. number < 64) isar.items },
    pub ghost same_register: { ForSome same (λ number. number < 64) },
}
