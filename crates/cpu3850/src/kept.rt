// What is put back where an instruction's step isn't served.
use f8_words::Flags;
use std::marker::Model;

/// What an instruction may change before its last step, as it was when the instruction began: accumulator, ISAR, status word, two
/// registers of the scratchpad, and the latches of the CPU's own ports. `Cpu::kept` makes it, and `Cpu::restore` puts it back.
/// Contracts see the record of them.
#[derive(Clone, Copy, Debug)]
pub struct Kept {
    pub(crate) accumulator: u8,
    pub(crate) isar: u8,
    pub(crate) flags: Flags,
    pub(crate) pair: u8,
    pub(crate) high: u8,
    pub(crate) low: u8,
    pub(crate) latches: [u8; 2],
}

impl Model for Kept {
    ghost use Rattle.std.specs.Prelude.{◌≡◌, ◌<◌, length};
    ghost use Rattle.cpu3850.specs.Keeping.{KeptRegisters};
    ghost use Rattle.f8_words.specs.StatusWord.{status_of_flags};

    ghost Value = { KeptRegisters };

    ghost view = { λ k. record {
      accumulator = k.accumulator;
      isar = k.isar;
      status = status_of_flags k.flags;
      pair = k.pair;
      high = k.high;
      low = k.low;
      latches = k.latches;
    } };

    ghost invariant = { λ k. (k.isar < 64) × (k.pair < 63) × (length k.latches ≡ 2) };

    ghost inverse = { λ k. record {
      accumulator = k.accumulator;
      isar = k.isar;
      flags = record {
        sign = k.status.sign;
        carry = k.status.carry;
        zero = k.status.zero;
        overflow = k.status.overflow;
        icb = k.status.icb;
      };
      pair = k.pair;
      high = k.high;
      low = k.low;
      latches = k.latches;
    } };
}
