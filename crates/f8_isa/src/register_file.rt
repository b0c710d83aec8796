// Accumulator, ISAR, status word and scratchpad.
use console_spec::SCRATCHPAD_SIZE;
use f8_ops::Op;
use f8_ops::registers::{J, K, POINTED, Q, STEPPED_DOWN, STEPPED_UP};
use f8_words::{Flags, Sum, add9, bcd};
use std::marker::Model;

/// What the processor itself keeps (Fairchild F8 User's Guide, 3850).
#[derive(Drop)]
pub struct RegisterFile {
    accumulator: u8,
    isar: u8,
    status: Flags,
    scratchpad: [u8; SCRATCHPAD_SIZE],
}

impl Model for RegisterFile {
    ghost use Rattle.std.specs.Prelude.{◌<◌};
    ghost use Rattle.console_spec.specs.Processor.{Registers};
    ghost use Rattle.f8_words.specs.StatusWord.{status_of_flags};

    ghost Value = { Registers };

    ghost view = { λ m. record {
      accumulator = m.accumulator;
      isar = m.isar;
      status = status_of_flags m.status;
      scratchpad = m.scratchpad;
    } };

    ghost invariant = { λ m. m.isar < 64 };
}

impl RegisterFile {
    ghost use Rattle.std.specs.Prelude.{◌≡◌, ◌+◌, ◌/◌, ◌%◌, ◌<◌, false, bit_and, bit_xor};
    ghost use Rattle.f8_spec.specs.Words.{word};
    ghost use Rattle.f8_spec.specs.Flags.{status_byte, is_positive, is_zero};
    ghost use Rattle.f8_spec.specs.Instructions.{InRange};
    ghost use Rattle.f8_words.specs.StatusWord.{status_of_flags};
    ghost use Rattle.console_spec.specs.Processor.{at_power, scratch_byte, with_scratch, with_pair, field_byte};
    ghost use Rattle.console_spec.specs.Processor.{register_of, with_isar_stepped, with_result, with_sum};
    ghost use Rattle.console_spec.specs.Processor.{with_decimal_sum, compared, decremented, effect, any_chosen};
    ghost use Rattle.console_spec.specs.Processor.{is_taken};

    /// The registers after power-on with a byte.
    pub fn at_power(fill: u8) -> RegisterFile
        ensures { result ≡ (at_power fill).registers }
    {
        RegisterFile {
            accumulator: fill,
            isar: fill % 64,
            status: Flags::default(),
            scratchpad: [fill; SCRATCHPAD_SIZE],
        }
    }

    pub fn accumulator(&self) -> u8
        ensures { result ≡ self.now.accumulator }
    {
        self.accumulator
    }

    pub fn isar(&self) -> u8
        ensures isar { result ≡ self.now.isar }
        ensures range { result < 64 }
    {
        self.isar
    }

    /// The status word as a byte.
    pub fn status(&self) -> u8
        ensures { result ≡ status_byte self.now.status }
    {
        self.status.to_byte()
    }

    /// The interrupt control bit is set.
    #[inline]
    pub fn icb(&self) -> bool
        ensures { result ≡ self.now.status.icb }
    {
        self.status.icb
    }

    /// Clears the interrupt control bit.
    pub fn clear_icb(&mut self)
        ensures { self.new ≡ record self.old { status = record self.old.status { icb = false } } }
    {
        self.status.icb = false;
    }

    pub fn scratchpad(&self) -> &[u8; SCRATCHPAD_SIZE]
        ensures { result.now ≡ self.now.scratchpad }
    {
        &self.scratchpad
    }

    /// The branch of an instruction is taken.
    #[inline]
    pub fn takes_branch(&self, op: Op) -> bool
        ensures { result ≡ is_taken op self.now }
    {
        match op {
            Op::Bt { t } => self.has_chosen(t),
            Op::Bf { t } => !self.has_chosen(t),
            Op::Br7 => self.isar % 8 != 7,
            _ => false,
        }
    }

    /// One of the flags that the bits of `t` choose is set.
    #[inline]
    fn has_chosen(&self, t: u8) -> bool
        ensures { result ≡ any_chosen t self.now.status }
    {
        let w = self.status;
        (t % 2 == 1 && w.sign)
            || (t / 2 % 2 == 1 && w.carry)
            || (t / 4 % 2 == 1 && w.zero)
            || (t / 8 % 2 == 1 && w.overflow)
    }

    /// What an instruction does to the registers with the one byte that it uses, but for the pairs that a counter is copied to.
    #[tactic(auto, unfolding(console_spec::specs::Processor::effect))]
    pub fn execute(&mut self, op: Op, byte: u8)
        requires { InRange op }
        ensures { self.new ≡ effect op byte self.old }
    {
        match op {
            Op::LrAKu => self.accumulator = self.register(K),
            Op::LrAKl => self.accumulator = self.register(K + 1),
            Op::LrAQu => self.accumulator = self.register(Q),
            Op::LrAQl => self.accumulator = self.register(Q + 1),
            Op::LrKuA => self.set_register(K, self.accumulator),
            Op::LrKlA => self.set_register(K + 1, self.accumulator),
            Op::LrQuA => self.set_register(Q, self.accumulator),
            Op::LrQlA => self.set_register(Q + 1, self.accumulator),
            Op::LrAIs => self.accumulator = self.isar,
            Op::LrIsA => self.isar = self.accumulator % 64,
            Op::Sr1 => self.set_result(self.accumulator >> 1),
            Op::Sl1 => self.set_result(self.accumulator << 1),
            Op::Sr4 => self.set_result(self.accumulator >> 4),
            Op::Sl4 => self.set_result(self.accumulator << 4),
            Op::Com => self.set_result(!self.accumulator),
            Op::Lnk => self.add(0, self.status.carry),
            Op::Di => self.status.icb = false,
            Op::Ei => self.status.icb = true,
            Op::LrWJ => self.status = Flags::from_byte(self.register(J)),
            Op::LrJW => self.set_register(J, self.status.to_byte()),
            Op::Inc => self.add(1, false),
            Op::Li | Op::Lm | Op::Pi | Op::Jmp => self.accumulator = byte,
            Op::Ni | Op::Nm => self.set_result(self.accumulator & byte),
            Op::Oi | Op::Om => self.set_result(self.accumulator | byte),
            Op::Xi | Op::Xm => self.set_result(self.accumulator ^ byte),
            Op::Ai | Op::Am => self.add(byte, false),
            Op::Amd => self.add_decimal(byte),
            Op::Ci | Op::Cm => self.compare(byte),
            Op::In | Op::Ins { .. } => self.set_result(byte),
            Op::Lis { n } => self.accumulator = n,
            Op::Lisu { n } => self.isar = n * 8 + self.isar % 8,
            Op::Lisl { n } => self.isar = self.isar / 8 * 8 + n,
            Op::Ds { r } => self.decrement(r),
            Op::LrAR { r } => self.load(r),
            Op::LrRA { r } => self.store(r),
            Op::As { r } => self.add_field(r),
            Op::Asd { r } => self.add_decimal_field(r),
            Op::Xs { r } => self.xor_field(r),
            Op::Ns { r } => self.and_field(r),
            _ => {}
        }
    }

    #[inline]
    fn register(&self, number: u8) -> u8
        requires { number < 64 }
        ensures { result ≡ scratch_byte number self.now }
    {
        self.scratchpad[number as usize]
    }

    #[inline]
    fn set_register(&mut self, number: u8, byte: u8)
        requires { number < 64 }
        ensures { self.new ≡ with_scratch number byte self.old }
    {
        self.scratchpad[number as usize] = byte;
    }

    /// The word in a pair of registers, its high byte first.
    #[inline]
    pub fn pair(&self, high: u8) -> u16
        requires { high < 63 }
        ensures { result ≡ word (scratch_byte high self.now) (scratch_byte (high + 1) self.now) }
    {
        u16::from(self.register(high)) * 256 + u16::from(self.register(high + 1))
    }

    #[inline]
    pub fn set_pair(&mut self, high: u8, word: u16)
        requires { high < 63 }
        ensures { self.new ≡ with_pair high (word / 256) (word % 256) self.old }
    {
        self.set_register(high, (word / 256) as u8);
        self.set_register(high + 1, (word % 256) as u8);
    }

    /// The register that a field names.
    #[inline]
    fn named_by(&self, field: u8) -> u8
        ensures number { result ≡ register_of field self.now }
        ensures range { result < 64 }
    {
        if field < POINTED { field } else { self.isar }
    }

    /// The byte in the register that a field names.
    #[inline]
    fn field(&self, field: u8) -> u8
        ensures { result ≡ field_byte field self.now }
    {
        self.register(self.named_by(field))
    }

    /// Steps the low digit of ISAR, which wraps, where a field says so. It comes after the register was read or written.
    #[inline]
    fn step_isar(&mut self, field: u8)
        ensures { self.new ≡ with_isar_stepped field self.old }
    {
        let high = self.isar / 8 * 8;
        match field {
            STEPPED_UP => self.isar = high + (self.isar + 1) % 8,
            STEPPED_DOWN => self.isar = high + (self.isar + 7) % 8,
            _ => {}
        }
    }

    /// A result that clears carry and overflow.
    #[inline]
    fn set_result(&mut self, value: u8)
        ensures { self.new ≡ with_result value self.old }
    {
        self.accumulator = value;
        self.status = Flags {
            sign: value < 0x80,
            carry: false,
            zero: value == 0,
            overflow: false,
            icb: self.status.icb,
        };
    }

    /// Adds to the accumulator.
    #[inline]
    fn add(&mut self, byte: u8, carry: bool)
        ensures { self.new ≡ with_sum byte carry self.old }
    {
        let sum = add9(self.accumulator, byte, carry);
        self.accumulator = sum.value;
        self.set_flags(sum);
    }

    /// Adds to the accumulator digit by digit; the flags are those of the binary sum.
    #[inline]
    fn add_decimal(&mut self, byte: u8)
        ensures { self.new ≡ with_decimal_sum byte self.old }
    {
        let (decimal, sum) = bcd(self.accumulator, byte);
        self.accumulator = decimal;
        self.set_flags(sum);
    }

    /// Compares a byte with the accumulator, which stays.
    #[inline]
    fn compare(&mut self, byte: u8)
        ensures { self.new ≡ compared byte self.old }
    {
        self.set_flags(add9(byte, !self.accumulator, true));
    }

    /// Takes 1 from the register that a field names, as the sum with 255. Like all that work on a field it then steps ISAR.
    #[inline]
    fn decrement(&mut self, field: u8)
        ensures { self.new ≡ with_isar_stepped field (decremented field self.old) }
    {
        let sum = add9(self.field(field), 0xFF, false);
        self.set_register(self.named_by(field), sum.value);
        self.set_flags(sum);
        self.step_isar(field);
    }

    #[inline]
    fn load(&mut self, field: u8)
        ensures { self.new ≡ with_isar_stepped field
            (record self.old { accumulator = field_byte field self.old }) }
    {
        self.accumulator = self.field(field);
        self.step_isar(field);
    }

    #[inline]
    fn store(&mut self, field: u8)
        ensures { self.new ≡ with_isar_stepped field
            (with_scratch (register_of field self.old) self.old.accumulator self.old) }
    {
        self.set_register(self.named_by(field), self.accumulator);
        self.step_isar(field);
    }

    #[inline]
    fn add_field(&mut self, field: u8)
        ensures { self.new ≡ with_isar_stepped field
            (with_sum (field_byte field self.old) false self.old) }
    {
        self.add(self.field(field), false);
        self.step_isar(field);
    }

    #[inline]
    fn add_decimal_field(&mut self, field: u8)
        ensures { self.new ≡ with_isar_stepped field
            (with_decimal_sum (field_byte field self.old) self.old) }
    {
        self.add_decimal(self.field(field));
        self.step_isar(field);
    }

    #[inline]
    fn xor_field(&mut self, field: u8)
        ensures { self.new ≡ with_isar_stepped field
            (with_result (bit_xor self.old.accumulator (field_byte field self.old)) self.old) }
    {
        self.set_result(self.accumulator ^ self.field(field));
        self.step_isar(field);
    }

    #[inline]
    fn and_field(&mut self, field: u8)
        ensures { self.new ≡ with_isar_stepped field
            (with_result (bit_and self.old.accumulator (field_byte field self.old)) self.old) }
    {
        self.set_result(self.accumulator & self.field(field));
        self.step_isar(field);
    }

    #[inline]
    fn set_flags(&mut self, sum: Sum)
        ensures { self.new ≡ record self.old {
          status = record self.old.status {
            sign = is_positive
                sum.value;
            carry = sum.carry;
            zero = is_zero sum.value;
            overflow = sum.overflow;
          };
        } }
    {
        self.status = Flags {
            sign: sum.value < 0x80,
            carry: sum.carry,
            zero: sum.value == 0,
            overflow: sum.overflow,
            icb: self.status.icb,
        };
    }
}
