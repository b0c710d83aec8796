// What is known of accumulator, ISAR, status word and scratchpad, and what an instruction makes of it.
use super::bytes::{
    and, complement, double, half, high_digit, known_decimal_sum, known_sum, low_digit_as_high,
    moved_digit, one_less, or, sum_value, xor,
};
use super::counters::Counters;
use super::pairs::Pair;
use super::status::{Status, known_not};
use super::writes::{Target, Write, Writes};
use abs_domain::{Abs, Digit, SCRATCHPAD_SIZE, Val, Word};
use f8_ops::Op;
use f8_ops::registers::{H, J, K, POINTED, Q, STEPPED_DOWN, STEPPED_UP};
use std::marker::Model;

/// What is known of the registers of the processor, with ISAR as two octal digits.
#[derive(Drop)]
pub struct Registers {
    accumulator: Option<u8>,
    high: Option<u8>,
    low: Option<u8>,
    status: Status,
    scratchpad: [Val; SCRATCHPAD_SIZE],
}

impl Model for Registers {
    ghost use Rattle.std.specs.Prelude.{◌<◌, ◌≡◌, length, map};
    ghost use Rattle.std.specs.Option.{ForSome};
    ghost use Rattle.abs_domain.specs.AbstractState.{KnownRegisters};
    ghost use Rattle.abs_domain.specs.KnownParts.{known_byte};
    ghost use Rattle.abs_step.specs.WorkView.{status_view};

    ghost Value = { KnownRegisters };

    ghost view = { λ m. record {
      accumulator = m.accumulator;
      high = m.high;
      low = m.low;
      status = status_view m.status;
      scratchpad = map known_byte m.scratchpad;
    } };

    ghost invariant = { λ m. (length m.scratchpad ≡ 64) × ForSome m.high (λ digit. digit < 8)
        × ForSome m.low (λ digit. digit < 8) };
}

impl Registers {
    ghost use Rattle.std.specs.Prelude.{◌≡◌, ◌+◌, ◌-◌, ◌*◌, ◌/◌, ◌%◌, ◌<◌};
    ghost use Rattle.std.specs.Prelude.{bit_and, bit_xor, Some, false, option_map};
    ghost use Rattle.std.specs.Option.{ForSome};
    ghost use Rattle.f8_spec.specs.Instructions.{InRange};
    ghost use Rattle.abs_domain.specs.StateView.{registers_of, state_of};
    ghost use Rattle.abs_step.specs.Known.{lift2};
    ghost use Rattle.abs_step.specs.RegisterWrites.{known_register, known_field};
    ghost use Rattle.abs_step.specs.RegisterWrites.{target_of, written_all};
    ghost use Rattle.abs_step.specs.KnownResults.{with_known_result, with_known_sum};
    ghost use Rattle.abs_step.specs.KnownResults.{with_known_decimal_sum, known_compared};
    ghost use Rattle.abs_step.specs.KnownResults.{with_digit_stepped, known_effect};
    ghost use Rattle.abs_step.specs.KnownResults.{known_after_sum, register_writes};
    ghost use Rattle.abs_step.specs.KnownResults.{field_write};
    ghost use Rattle.abs_step.specs.KnownFlow.{known_taken};
    ghost use Rattle.abs_step.specs.WorkView.{target_view, writes_view, pair_view, counters_view};

    /// Those of a state.
    pub fn of(abs: &Abs) -> Registers
        ensures { result ≡ registers_of abs.now }
    {
        Registers {
            accumulator: abs.a.known(),
            high: abs.hi.known(),
            low: abs.lo.known(),
            status: Status::of(&abs.w),
            scratchpad: abs.regs,
        }
    }

    /// The state with these registers.
    pub fn state_with(&self, counters: Counters) -> Abs
        ensures { state_of result
            ≡ record { registers = self.now; counters = counters_view counters } }
    {
        Abs {
            a: Val::from(self.accumulator),
            regs: self.scratchpad,
            hi: Digit::from(self.high),
            lo: Digit::from(self.low),
            w: self.status.bits(),
            d0: Word::from(counters.d0),
            d1: Word::from(counters.d1),
            c: Word::from(counters.c),
            s0: counters.s0,
            s1: counters.s1,
            p0: counters.p0,
            p1: counters.p1,
        }
    }

    /// The byte in the register of a number.
    pub fn register(&self, number: u8) -> Option<u8>
        requires { number < 64 }
        ensures { result ≡ known_register number self.now }
    {
        self.scratchpad[usize::from(number)].known()
    }

    /// The register that a field names.
    fn target(&self, field: u8) -> Target
        ensures named { target_view result ≡ target_of field self.now }
        ensures high { ForSome result.high (λ digit. digit < 8) }
        ensures low { ForSome result.low (λ digit. digit < 8) }
    {
        if field < POINTED {
            Target::exactly(field)
        } else {
            Target {
                high: self.high,
                low: self.low,
            }
        }
    }

    /// The byte in the register that a field names.
    fn field(&self, field: u8) -> Option<u8>
        ensures { result ≡ known_field field self.now }
    {
        self.register(self.target(field).number()?)
    }

    /// The bytes in the registers of a number and of the next.
    pub fn pair(&self, high: u8) -> Pair
        requires { high < 63 }
        ensures { pair_view result ≡ record {
          high = known_register high self.now;
          low = known_register (high + 1) self.now;
        } }
    {
        Pair {
            high: self.register(high),
            low: self.register(high + 1),
        }
    }

    pub fn accumulator(&self) -> Option<u8>
        ensures { result ≡ self.now.accumulator }
    {
        self.accumulator
    }

    /// The interrupt control bit.
    pub fn icb(&self) -> Option<bool>
        ensures { result ≡ self.now.status.icb }
    {
        self.status.icb
    }

    /// Whether the branch of an instruction is taken.
    pub fn takes_branch(&self, op: Op) -> Option<bool>
        ensures { result ≡ known_taken op self.now }
    {
        match op {
            Op::Bt { t } => self.status.any_chosen(t),
            Op::Bf { t } => known_not(self.status.any_chosen(t)),
            Op::Br7 => Some(self.low? != 7),
            _ => Some(false),
        }
    }

    /// What an instruction writes to the scratchpad, with the bytes of the stack register and of the data counter.
    #[tactic(auto, unfolding(crate::specs::KnownResults::register_writes))]
    pub fn writes(&self, op: Op, stack: Pair, counter: Pair) -> Writes
        ensures { writes_view result
            ≡ register_writes op (pair_view stack) (pair_view counter) self.now }
    {
        match op {
            Op::LrKuA => Writes::one(K, self.accumulator),
            Op::LrKlA => Writes::one(K + 1, self.accumulator),
            Op::LrQuA => Writes::one(Q, self.accumulator),
            Op::LrQlA => Writes::one(Q + 1, self.accumulator),
            Op::LrKP => Writes::pair(K, stack),
            Op::LrQDc => Writes::pair(Q, counter),
            Op::LrHDc => Writes::pair(H, counter),
            Op::LrJW => Writes::one(J, self.status.byte()),
            Op::Ds { r } => self.field_write(r, one_less(self.field(r))),
            Op::LrRA { r } => self.field_write(r, self.accumulator),
            _ => Writes::Nothing,
        }
    }

    /// A byte to the register that a field names.
    fn field_write(&self, field: u8, value: Option<u8>) -> Writes
        ensures { writes_view result ≡ field_write field value self.now }
    {
        Writes::One(Write {
            target: self.target(field),
            value,
        })
    }

    /// Carries out an instruction that uses one byte, with what it writes.
    pub fn step(&mut self, op: Op, byte: Option<u8>, writes: Writes)
        requires { InRange op }
        ensures { self.new ≡ record (known_effect op byte self.old) {
          scratchpad = written_all (writes_view writes) self.old.scratchpad;
        } }
    {
        let scratchpad = writes.scratchpad_after(&self.scratchpad);
        self.take_effect(op, byte);
        self.scratchpad = scratchpad;
    }

    /// What an instruction that uses one byte makes of it, but for the scratchpad.
    #[tactic(auto, unfolding(crate::specs::KnownResults::known_effect))]
    fn take_effect(&mut self, op: Op, byte: Option<u8>)
        requires { InRange op }
        ensures { self.new ≡ known_effect op byte self.old }
    {
        match op {
            Op::LrAKu => self.accumulator = self.register(K),
            Op::LrAKl => self.accumulator = self.register(K + 1),
            Op::LrAQu => self.accumulator = self.register(Q),
            Op::LrAQl => self.accumulator = self.register(Q + 1),
            Op::LrAIs => self.accumulator = self.isar(),
            Op::LrIsA => self.set_isar(self.accumulator),
            Op::Sr1 => self.set_result(half(self.accumulator)),
            Op::Sl1 => self.set_result(double(self.accumulator)),
            Op::Sr4 => self.set_result(high_digit(self.accumulator)),
            Op::Sl4 => self.set_result(low_digit_as_high(self.accumulator)),
            Op::Com => self.set_result(complement(self.accumulator)),
            Op::Lnk => self.add(Some(0), self.status.carry),
            Op::Di => self.status.icb = Some(false),
            Op::Ei => self.status.icb = Some(true),
            Op::LrWJ => self.status = Status::of_byte(self.register(J)),
            Op::Inc => self.add(Some(1), Some(false)),
            Op::Li | Op::Lm | Op::Pi | Op::Jmp => self.accumulator = byte,
            Op::Ni | Op::Nm => self.set_result(and(self.accumulator, byte)),
            Op::Oi | Op::Om => self.set_result(or(self.accumulator, byte)),
            Op::Xi | Op::Xm => self.set_result(xor(self.accumulator, byte)),
            Op::Ai | Op::Am => self.add(byte, Some(false)),
            Op::Amd => self.add_decimal(byte),
            Op::Ci | Op::Cm => self.compare(byte),
            Op::In | Op::Ins { .. } => self.set_result(byte),
            Op::Lis { n } => self.accumulator = Some(n),
            Op::Lisu { n } => self.high = Some(n),
            Op::Lisl { n } => self.low = Some(n),
            Op::Ds { r } => self.decrement(r),
            Op::LrAR { r } => self.load(r),
            Op::LrRA { r } => self.step_isar(r),
            Op::As { r } => self.add_field(r),
            Op::Asd { r } => self.add_decimal_field(r),
            Op::Xs { r } => self.xor_field(r),
            Op::Ns { r } => self.and_field(r),
            _ => {},
        }
    }

    /// ISAR, where both digits are known.
    fn isar(&self) -> Option<u8>
        ensures { result ≡ lift2 (λ high low. high * 8 + low) self.now.high self.now.low }
    {
        Some(self.high? * 8 + self.low?)
    }

    /// Sets ISAR to the low six bits of a byte.
    fn set_isar(&mut self, byte: Option<u8>)
        ensures { self.new ≡ record self.old {
          high = option_map (λ a. a % 64 / 8) byte;
          low = option_map (λ a. a % 64 % 8) byte;
        } }
    {
        match byte {
            Some(byte) => {
                self.high = Some(byte % 64 / 8);
                self.low = Some(byte % 64 % 8);
            },
            None => {
                self.high = None;
                self.low = None;
            },
        }
    }

    /// Steps the low digit of ISAR, which wraps, where a field says so.
    fn step_isar(&mut self, field: u8)
        ensures { self.new ≡ with_digit_stepped field self.old }
    {
        match field {
            STEPPED_UP => self.low = moved_digit(self.low, 1),
            STEPPED_DOWN => self.low = moved_digit(self.low, 7),
            _ => {},
        }
    }

    /// A result that clears carry and overflow.
    fn set_result(&mut self, value: Option<u8>)
        ensures { self.new ≡ with_known_result value self.old }
    {
        self.accumulator = value;
        self.status = self.status.after_result(value);
    }

    /// Adds to the accumulator.
    #[tactic(auto, using(crate::proofs::KnownSums::sum_laws))]
    fn add(&mut self, byte: Option<u8>, carry: Option<bool>)
        ensures { self.new ≡ with_known_sum byte carry self.old }
    {
        let sum = known_sum(self.accumulator, byte, carry);
        self.accumulator = sum_value(sum);
        self.status = self.status.after_sum(sum);
    }

    /// Adds to the accumulator digit by digit; the flags are those of the binary sum.
    #[tactic(auto, using(crate::proofs::KnownSums::sum_laws))]
    fn add_decimal(&mut self, byte: Option<u8>)
        ensures { self.new ≡ with_known_decimal_sum byte self.old }
    {
        let sum = known_sum(self.accumulator, byte, Some(false));
        self.accumulator = known_decimal_sum(self.accumulator, byte);
        self.status = self.status.after_sum(sum);
    }

    /// Compares a byte with the accumulator, which stays.
    #[tactic(auto, using(crate::proofs::KnownSums::sum_laws))]
    fn compare(&mut self, byte: Option<u8>)
        ensures { self.new ≡ known_compared byte self.old }
    {
        let sum = known_sum(byte, complement(self.accumulator), Some(true));
        self.status = self.status.after_sum(sum);
    }

    /// The flags after 1 is taken from the register that a field names, as the sum with 255. Like all that work on a field it then steps
    /// ISAR.
    #[tactic(auto, using(crate::proofs::KnownSums::sum_laws))]
    fn decrement(&mut self, field: u8)
        ensures { self.new ≡ with_digit_stepped field (record self.old {
          status = known_after_sum self.old.status (known_field field self.old) (Some 255)
              (Some false);
        }) }
    {
        let sum = known_sum(self.field(field), Some(0xFF), Some(false));
        self.status = self.status.after_sum(sum);
        self.step_isar(field);
    }

    fn load(&mut self, field: u8)
        ensures { self.new ≡ with_digit_stepped field
            (record self.old { accumulator = known_field field self.old }) }
    {
        self.accumulator = self.field(field);
        self.step_isar(field);
    }

    fn add_field(&mut self, field: u8)
        ensures { self.new ≡ with_digit_stepped field
            (with_known_sum (known_field field self.old) (Some false) self.old) }
    {
        self.add(self.field(field), Some(false));
        self.step_isar(field);
    }

    fn add_decimal_field(&mut self, field: u8)
        ensures { self.new ≡ with_digit_stepped field
            (with_known_decimal_sum (known_field field self.old) self.old) }
    {
        self.add_decimal(self.field(field));
        self.step_isar(field);
    }

    fn xor_field(&mut self, field: u8)
        ensures { self.new ≡ with_digit_stepped field (with_known_result
            (lift2 bit_xor self.old.accumulator (known_field field self.old)) self.old) }
    {
        self.set_result(xor(self.accumulator, self.field(field)));
        self.step_isar(field);
    }

    fn and_field(&mut self, field: u8)
        ensures { self.new ≡ with_digit_stepped field (with_known_result
            (lift2 bit_and self.old.accumulator (known_field field self.old)) self.old) }
    {
        self.set_result(and(self.accumulator, self.field(field)));
        self.step_isar(field);
    }
}
