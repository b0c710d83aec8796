// An abstract state, with its order and its join.
ghost use Rattle.std.specs.Prelude.{◌<◌, ◌≡◌, length};
ghost use Rattle.std.specs.Option.{ForSome};
ghost use Rattle.abs_domain.specs.KnownParts.{known_digit};
ghost use Rattle.abs_domain.specs.Lattice.{is_fact_below};

use super::scratchpad::{SCRATCHPAD_SIZE, scratchpad_below, scratchpad_join};
use super::status::{status_below, status_join};
use super::values::{Bit, Digit, Val, Word};

/// What is known of the F8 at an instruction's beginning. A state stands for every concrete one whose parts are those that it knows, and
/// where the facts hold that it states (this project's own).
#[derive(Clone, Copy, Debug, PartialEq, Eq)]
pub struct Abs {
    /// The accumulator.
    pub a: Val,

    /// The scratchpad.
    pub regs: [Val; SCRATCHPAD_SIZE],

    /// ISAR's high digit.
    pub hi: Digit,

    /// ISAR's low digit.
    pub lo: Digit,

    /// The status word, from bit 0 on: sign, carry, zero, overflow and the interrupt control bit.
    pub w: [Bit; 5],

    /// The data counter D0.
    pub d0: Word,

    /// The second data counter, D1.
    pub d1: Word,

    /// The DC0 of every 3851.
    pub c: Word,

    /// The DC0 of every 3853 is D0.
    pub s0: bool,

    /// The DC1 of every 3853 is D1.
    pub s1: bool,

    /// The DC0 of every 3851 is D0.
    pub p0: bool,

    /// The DC0 of every 3851 is D1.
    pub p1: bool,

    pub ghost all_registers: { length regs ≡ 64 },
    pub ghost high_octal: { ForSome (known_digit hi) (λ digit. digit < 8) },
    pub ghost low_octal: { ForSome (known_digit lo) (λ digit. digit < 8) },
}

impl Abs {
    ghost use Rattle.std.specs.Prelude.{◌↔◌, IsTrue};
    ghost use Rattle.abs_domain.specs.AbstractState.{StateBelow};
    ghost use Rattle.abs_domain.specs.Joins.{joined_state, is_state_below, are_registers_below, are_counters_below};
    ghost use Rattle.abs_domain.specs.StateView.{state_of, registers_of, counters_of};

    /// The state that says what both say: each part that both know alike, and each fact that both state.
    pub fn join(&self, other: &Abs) -> Abs
        ensures { state_of result ≡ joined_state (state_of self.now) (state_of other.now) }
    {
        Abs {
            a: self.a.join(other.a),
            regs: scratchpad_join(&self.regs, &other.regs),
            hi: self.hi.join(other.hi),
            lo: self.lo.join(other.lo),
            w: status_join(&self.w, &other.w),
            d0: self.d0.join(other.d0),
            d1: self.d1.join(other.d1),
            c: self.c.join(other.c),
            s0: self.s0 && other.s0,
            s1: self.s1 && other.s1,
            p0: self.p0 && other.p0,
            p1: self.p1 && other.p1,
        }
    }

    /// Whether the upper state says no more: each part that it knows is known alike here, and each fact that it states is stated here.
    pub fn below(&self, upper: &Abs) -> bool
        ensures test { result ≡ is_state_below (state_of self.now) (state_of upper.now) }
        ensures order { IsTrue result ↔ StateBelow (state_of self.now) (state_of upper.now) }
    {
        self.registers_below(upper) && self.counters_below(upper)
    }

    /// Whether the registers of the upper state say no more.
    fn registers_below(&self, upper: &Abs) -> bool
        ensures { result ≡ are_registers_below (registers_of self.now) (registers_of upper.now) }
    {
        self.a.below(upper.a)
            && self.hi.below(upper.hi)
            && self.lo.below(upper.lo)
            && status_below(&self.w, &upper.w)
            && scratchpad_below(&self.regs, &upper.regs)
    }

    /// Whether the counters of the upper state say no more, and their facts.
    fn counters_below(&self, upper: &Abs) -> bool
        ensures { result ≡ are_counters_below (counters_of self.now) (counters_of upper.now) }
    {
        self.d0.below(upper.d0)
            && self.d1.below(upper.d1)
            && self.c.below(upper.c)
            && fact_below(self.s0, upper.s0)
            && fact_below(self.s1, upper.s1)
            && fact_below(self.p0, upper.p0)
            && fact_below(self.p1, upper.p1)
    }
}

/// Whether a fact holds, or the upper one isn't stated.
#[inline]
fn fact_below(lower: bool, upper: bool) -> bool
    ensures { result ≡ is_fact_below lower upper }
{
    lower || !upper
}
