// Accumulator, ISAR, status word and scratchpad, and what a step makes of them.
use super::kept::Kept;
use console_spec::{Regs, SCRATCHPAD_SIZE};
use f8_ops::registers::{H, J, K, POINTED, Q, STEPPED_DOWN, STEPPED_UP};
use f8_ops::{Op, Row};
use f8_words::{Flags, Sum, add9, bcd};
use std::marker::Model;

/// What the 3850 keeps beside the opcode: accumulator, ISAR, status word and scratchpad. Contracts see the flat machine's registers.
#[derive(Debug, Drop)]
pub(crate) struct RegisterFile {
    pub(crate) accumulator: u8,
    pub(crate) isar: u8,
    pub(crate) flags: Flags,
    scratchpad: [u8; SCRATCHPAD_SIZE],
}

impl Model for RegisterFile {
    ghost use Rattle.std.specs.Prelude.{◌≡◌, ◌<◌, length};
    ghost use Rattle.console_spec.specs.Processor.{Registers};
    ghost use Rattle.f8_words.specs.StatusWord.{status_of_flags};

    ghost Value = { Registers };

    ghost view = { λ r. record {
      accumulator = r.accumulator;
      isar = r.isar;
      status = status_of_flags r.flags;
      scratchpad = r.scratchpad;
    } };

    ghost invariant = { λ r. (r.isar < 64) × (length r.scratchpad ≡ 64) };
}

impl RegisterFile {
    ghost use Rattle.std.specs.Prelude.{◌≡◌, ◌+◌, ◌*◌, ◌/◌, ◌%◌, ◌-◌, ◌<◌, false, [], bit_and, bit_xor};
    ghost use Rattle.f8_spec.specs.Instructions.{InRange};
    ghost use Rattle.f8_words.specs.Sums.{sum_of};
    ghost use Rattle.f8_spec.specs.Flags.{after_sum};
    ghost use Rattle.cpu3850.specs.CpuSteps.{AreInRange, driven_in};
    ghost use Rattle.cpu3850.specs.Keeping.{kept_with, restored_registers};
    ghost use Rattle.console_spec.specs.Processor.{at_power, scratch_byte, with_scratch, register_of, field_byte};
    ghost use Rattle.console_spec.specs.Processor.{with_isar_stepped, with_result, with_sum, with_decimal_sum};
    ghost use Rattle.console_spec.specs.Processor.{compared, decremented, effect, any_chosen, is_taken, told_regs};

    pub(crate) fn power(fill: u8) -> RegisterFile
        ensures { result ≡ (at_power fill).registers }
    {
        RegisterFile {
            accumulator: fill,
            isar: fill % 64,
            flags: Flags::default(),
            scratchpad: [fill; SCRATCHPAD_SIZE],
        }
    }

    pub(crate) fn scratch(&self, number: u8) -> u8
        requires { number < 64 }
        ensures { result ≡ scratch_byte number self.now }
    {
        self.scratchpad[usize::from(number)]
    }

    pub(crate) fn set_scratch(&mut self, number: u8, byte: u8)
        requires { number < 64 }
        ensures { self.new ≡ with_scratch number byte self.old }
    {
        self.scratchpad[usize::from(number)] = byte;
    }

    /// The number of the register that a field names.
    fn register(&self, field: u8) -> u8
        ensures value { result ≡ register_of field self.now }
        ensures below { result < 64 }
    {
        if field < POINTED { field } else { self.isar }
    }

    fn field(&self, field: u8) -> u8
        ensures { result ≡ field_byte field self.now }
    {
        self.scratch(self.register(field))
    }

    fn step_isar(&mut self, field: u8)
        ensures { self.new ≡ with_isar_stepped field self.old }
    {
        let isar = self.isar;
        match field {
            STEPPED_UP => self.isar = isar / 8 * 8 + (isar + 1) % 8,
            STEPPED_DOWN => self.isar = isar / 8 * 8 + (isar + 7) % 8,
            _ => {}
        }
    }

    fn set_result(&mut self, value: u8)
        ensures { self.new ≡ with_result value self.old }
    {
        self.accumulator = value;
        self.flags.sign = value < 128;
        self.flags.carry = false;
        self.flags.zero = value == 0;
        self.flags.overflow = false;
    }

    fn set_sum_flags(&mut self, a: u8, b: u8, carry: bool, sum: Sum)
        requires { sum ≡ sum_of a b carry }
        ensures { self.new ≡ record self.old { status = after_sum self.old.status a b carry } }
    {
        self.flags.sign = sum.value < 128;
        self.flags.carry = sum.carry;
        self.flags.zero = sum.value == 0;
        self.flags.overflow = sum.overflow;
    }

    fn add(&mut self, byte: u8, carry: bool)
        ensures { self.new ≡ with_sum byte carry self.old }
    {
        let accumulator = self.accumulator;
        let sum = add9(accumulator, byte, carry);
        self.set_sum_flags(accumulator, byte, carry, sum);
        self.accumulator = sum.value;
    }

    fn add_decimal(&mut self, byte: u8)
        ensures { self.new ≡ with_decimal_sum byte self.old }
    {
        let accumulator = self.accumulator;
        let (decimal, sum) = bcd(accumulator, byte);
        self.set_sum_flags(accumulator, byte, false, sum);
        self.accumulator = decimal;
    }

    fn compare(&mut self, byte: u8)
        ensures { self.new ≡ compared byte self.old }
    {
        let complement = 255 - self.accumulator;
        self.set_sum_flags(byte, complement, true, add9(byte, complement, true));
    }

    fn decrement(&mut self, field: u8)
        ensures { self.new ≡ with_isar_stepped field (decremented field self.old) }
    {
        let register = self.register(field);
        let byte = self.scratch(register);
        let sum = add9(byte, 255, false);
        self.set_sum_flags(byte, 255, false, sum);
        self.set_scratch(register, sum.value);
        self.step_isar(field);
    }

    fn load(&mut self, field: u8)
        ensures { self.new ≡ with_isar_stepped field
            (record self.old { accumulator = field_byte field self.old }) }
    {
        self.accumulator = self.field(field);
        self.step_isar(field);
    }

    fn store(&mut self, field: u8)
        ensures { self.new ≡ with_isar_stepped field
            (with_scratch (register_of field self.old) self.old.accumulator self.old) }
    {
        self.set_scratch(self.register(field), self.accumulator);
        self.step_isar(field);
    }

    fn add_field(&mut self, field: u8)
        ensures { self.new ≡ with_isar_stepped field
            (with_sum (field_byte field self.old) false self.old) }
    {
        self.add(self.field(field), false);
        self.step_isar(field);
    }

    fn add_decimal_field(&mut self, field: u8)
        ensures { self.new ≡ with_isar_stepped field
            (with_decimal_sum (field_byte field self.old) self.old) }
    {
        self.add_decimal(self.field(field));
        self.step_isar(field);
    }

    fn xor_field(&mut self, field: u8)
        ensures { self.new ≡ with_isar_stepped field
            (with_result (bit_xor self.old.accumulator (field_byte field self.old)) self.old) }
    {
        self.set_result(self.accumulator ^ self.field(field));
        self.step_isar(field);
    }

    fn and_field(&mut self, field: u8)
        ensures { self.new ≡ with_isar_stepped field
            (with_result (bit_and self.old.accumulator (field_byte field self.old)) self.old) }
    {
        self.set_result(self.accumulator & self.field(field));
        self.step_isar(field);
    }

    /// The registers after an instruction that uses this byte.
    #[tactic(auto, unfolding(console_spec::specs::Processor::effect))]
    pub(crate) fn execute(&mut self, op: Op, byte: u8)
        requires { InRange op }
        ensures { self.new ≡ effect op byte self.old }
    {
        match op {
            Op::LrAKu => self.accumulator = self.scratch(K),
            Op::LrAKl => self.accumulator = self.scratch(K + 1),
            Op::LrAQu => self.accumulator = self.scratch(Q),
            Op::LrAQl => self.accumulator = self.scratch(Q + 1),
            Op::LrKuA => self.set_scratch(K, self.accumulator),
            Op::LrKlA => self.set_scratch(K + 1, self.accumulator),
            Op::LrQuA => self.set_scratch(Q, self.accumulator),
            Op::LrQlA => self.set_scratch(Q + 1, self.accumulator),
            Op::LrAIs => self.accumulator = self.isar,
            Op::LrIsA => self.isar = self.accumulator % 64,
            Op::Sr1 => self.set_result(self.accumulator / 2),
            Op::Sl1 => self.set_result(self.accumulator % 128 * 2),
            Op::Sr4 => self.set_result(self.accumulator / 16),
            Op::Sl4 => self.set_result(self.accumulator % 16 * 16),
            Op::Com => self.set_result(255 - self.accumulator),
            Op::Lnk => self.add(0, self.flags.carry),
            Op::Di => self.flags.icb = false,
            Op::Ei => self.flags.icb = true,
            Op::LrWJ => self.flags = Flags::from_byte(self.scratch(J)),
            Op::LrJW => self.set_scratch(J, self.flags.to_byte()),
            Op::Inc => self.add(1, false),
            Op::Lm | Op::Li | Op::Pi | Op::Jmp => self.accumulator = byte,
            Op::Ni | Op::Nm => self.set_result(self.accumulator & byte),
            Op::Oi | Op::Om => self.set_result(self.accumulator | byte),
            Op::Xi | Op::Xm => self.set_result(self.accumulator ^ byte),
            Op::Ai | Op::Am => self.add(byte, false),
            Op::Ci | Op::Cm => self.compare(byte),
            Op::Amd => self.add_decimal(byte),
            Op::In | Op::Ins { .. } => self.set_result(byte),
            Op::Lisu { n } => self.isar = n * 8 + self.isar % 8,
            Op::Lisl { n } => self.isar = self.isar / 8 * 8 + n,
            Op::Lis { n } => self.accumulator = n,
            Op::Ds { r } => self.decrement(r),
            Op::LrAR { r } => self.load(r),
            Op::LrRA { r } => self.store(r),
            Op::As { r } => self.add_field(r),
            Op::Asd { r } => self.add_decimal_field(r),
            Op::Xs { r } => self.xor_field(r),
            Op::Ns { r } => self.and_field(r),
            _ => {}
        }
    }

    /// One of the flags that the bits of `t` choose is set: sign, carry, zero and overflow, from the lowest bit on.
    fn any_chosen(&self, t: u8) -> bool
        ensures { result ≡ any_chosen t self.now.status }
    {
        let flags = &self.flags;
        t % 2 == 1 && flags.sign
            || t / 2 % 2 == 1 && flags.carry
            || t / 4 % 2 == 1 && flags.zero
            || t / 8 % 2 == 1 && flags.overflow
    }

    /// The instruction is a branch, and is taken.
    pub(crate) fn takes(&self, op: Op) -> bool
        ensures { result ≡ is_taken op self.now }
    {
        match op {
            Op::Bt { t } => self.any_chosen(t),
            Op::Bf { t } => !self.any_chosen(t),
            Op::Br7 => self.isar % 8 != 7,
            _ => false,
        }
    }

    pub(crate) fn regs(&self, p: u16, p1: u16, d0: u16, d1: u16) -> Regs
        ensures regs { result ≡ told_regs (record {
          flow = record { p = p; p1 = p1; d0 = d0; d1 = d1 };
          registers = self.now;
          keys = [];
          writes = [];
          acknowledged = [];
          pulses = [];
          count = 0;
          phi = 0;
        }) }
        ensures isar { result.isar < 64 }
    {
        Regs {
            p,
            p1,
            d0,
            d1,
            a: self.accumulator,
            isar: self.isar,
            w: self.flags.to_byte(),
            scratch: self.scratchpad,
        }
    }

    /// The byte that is driven in a step, by the row of the instruction and its port.
    pub(crate) fn driven(&self, row: Row, port: u8, index: u8) -> u8
        ensures { result ≡ driven_in row port index self.now }
    {
        match row {
            Row::StackFromK => two(self.scratch(K), self.scratch(K + 1), index),
            Row::CallK => two(self.scratch(K + 1), self.scratch(K), index),
            Row::JumpQ => two(self.scratch(Q + 1), self.scratch(Q), index),
            Row::DataFromQ => two(self.scratch(Q), self.scratch(Q + 1), index),
            Row::DataFromH => two(self.scratch(H), self.scratch(H + 1), index),
            Row::StoreData | Row::AddData => only(0, self.accumulator, index),
            Row::PortOut => only(1, self.accumulator, index),
            Row::Call => only(3, self.accumulator, index),
            Row::Jump => only(2, self.accumulator, index),
            Row::ShortIn => only(0, port, index),
            Row::ShortOut => two(port, self.accumulator, index),
            _ => 0,
        }
    }

    pub(crate) fn kept(&self, pair: u8, latches: [u8; 2]) -> Kept
        requires { pair < 63 }
        ensures kept { result ≡ kept_with pair latches self.now }
        ensures ranges { AreInRange self.now }
    {
        Kept {
            accumulator: self.accumulator,
            isar: self.isar,
            flags: self.flags,
            pair,
            high: self.scratch(pair),
            low: self.scratch(pair + 1),
            latches,
        }
    }

    pub(crate) fn restore(&mut self, kept: Kept)
        ensures { self.new ≡ restored_registers kept self.old }
    {
        self.accumulator = kept.accumulator;
        self.isar = kept.isar;
        self.flags = kept.flags;
        self.set_scratch(kept.pair, kept.high);
        self.set_scratch(kept.pair + 1, kept.low);
    }
}

ghost use Rattle.std.specs.Prelude.{◌≡◌};
ghost use Rattle.cpu3850.specs.CpuSteps.{only, two};

/// A byte in one step, and 00 in every other.
fn only(at: u8, byte: u8, index: u8) -> u8
    ensures { result ≡ only at byte index }
{
    if index == at { byte } else { 0 }
}

/// The bytes of the first two steps, and 00 later.
fn two(first: u8, second: u8, index: u8) -> u8
    ensures { result ≡ two first second index }
{
    if index == 0 {
        first
    } else {
        only(1, second, index)
    }
}
