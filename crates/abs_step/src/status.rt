// The status word, each bit known or not.
ghost use Rattle.std.specs.Prelude.{◌≡◌};
ghost use Rattle.abs_domain.specs.StateView.{status_of};
ghost use Rattle.abs_step.specs.Known.{known_or, known_not};
ghost use Rattle.abs_step.specs.KnownResults.{known_after_result, known_status_of};
ghost use Rattle.abs_step.specs.KnownResults.{known_status_byte};
ghost use Rattle.abs_step.specs.KnownFlow.{known_any_chosen, chosen_flag};
ghost use Rattle.abs_step.specs.WorkView.{status_view, status_after};

use abs_domain::Bit;
use f8_words::{Flags, Sum};

/// The place of the interrupt control bit in the status word.
pub const ICB: usize = 4;

/// What is known of the status word.
#[derive(Clone, Copy)]
pub struct Status {
    pub sign: Option<bool>,
    pub carry: Option<bool>,
    pub zero: Option<bool>,
    pub overflow: Option<bool>,
    pub icb: Option<bool>,
}

impl Status {
    /// The status word of a state, from bit 0 on.
    pub fn of(bits: &[Bit; 5]) -> Status
        ensures { status_view result ≡ status_of bits.now }
    {
        Status {
            sign: bits[0].known(),
            carry: bits[1].known(),
            zero: bits[2].known(),
            overflow: bits[3].known(),
            icb: bits[ICB].known(),
        }
    }

    /// The bits from bit 0 on.
    pub fn bits(self) -> [Bit; 5]
        ensures { status_of result ≡ status_view self }
    {
        [
            Bit::from(self.sign),
            Bit::from(self.carry),
            Bit::from(self.zero),
            Bit::from(self.overflow),
            Bit::from(self.icb),
        ]
    }

    /// After a sum. Where it isn't known no flag is.
    pub fn after_sum(self, sum: Option<Sum>) -> Status
        ensures { status_view result ≡ status_after (status_view self) sum }
    {
        match sum {
            Some(sum) => Status {
                sign: Some(sum.value < 0x80),
                carry: Some(sum.carry),
                zero: Some(sum.value == 0),
                overflow: Some(sum.overflow),
                icb: self.icb,
            },
            None => Status {
                sign: None,
                carry: None,
                zero: None,
                overflow: None,
                icb: self.icb,
            },
        }
    }

    /// After a result that clears carry and overflow, known or not.
    pub fn after_result(self, value: Option<u8>) -> Status
        ensures { status_view result ≡ known_after_result (status_view self) value }
    {
        let (sign, zero) = match value {
            Some(value) => (Some(value < 0x80), Some(value == 0)),
            None => (None, None),
        };
        Status {
            sign,
            carry: Some(false),
            zero,
            overflow: Some(false),
            icb: self.icb,
        }
    }

    /// The status word that a byte says.
    pub fn of_byte(byte: Option<u8>) -> Status
        ensures { status_view result ≡ known_status_of byte }
    {
        match byte {
            Some(byte) => {
                let flags = Flags::from_byte(byte);
                Status {
                    sign: Some(flags.sign),
                    carry: Some(flags.carry),
                    zero: Some(flags.zero),
                    overflow: Some(flags.overflow),
                    icb: Some(flags.icb),
                }
            },
            None => Status {
                sign: None,
                carry: None,
                zero: None,
                overflow: None,
                icb: None,
            },
        }
    }

    /// The status word as a byte, where all of it is known.
    pub fn byte(self) -> Option<u8>
        ensures { result ≡ known_status_byte (status_view self) }
    {
        let flags = Flags {
            sign: self.sign?,
            carry: self.carry?,
            zero: self.zero?,
            overflow: self.overflow?,
            icb: self.icb?,
        };
        Some(flags.to_byte())
    }

    /// Whether one of the flags that the bits of `t` choose is set.
    pub fn any_chosen(self, t: u8) -> Option<bool>
        ensures { result ≡ known_any_chosen t (status_view self) }
    {
        let sign = chosen_flag(t % 2 == 1, self.sign);
        let carry = chosen_flag(t / 2 % 2 == 1, self.carry);
        let zero_flag = chosen_flag(t / 4 % 2 == 1, self.zero);
        let overflow = chosen_flag(t / 8 % 2 == 1, self.overflow);
        known_or(known_or(known_or(sign, carry), zero_flag), overflow)
    }
}

/// A flag that a branch looks at. One that it doesn't choose counts as clear.
fn chosen_flag(chosen: bool, flag: Option<bool>) -> Option<bool>
    ensures { result ≡ chosen_flag chosen flag }
{
    if chosen { flag } else { Some(false) }
}

/// Whether one of two is true. One that is known to be true decides it.
fn known_or(first: Option<bool>, second: Option<bool>) -> Option<bool>
    ensures { result ≡ known_or first second }
{
    match first {
        Some(true) => Some(true),
        Some(false) => second,
        None => match second {
            Some(true) => Some(true),
            _ => None,
        },
    }
}

/// Whether it is false.
pub fn known_not(bit: Option<bool>) -> Option<bool>
    ensures { result ≡ known_not bit }
{
    Some(!bit?)
}
