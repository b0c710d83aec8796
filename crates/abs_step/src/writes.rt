// Writes to the scratchpad, of which the register or the byte may be unknown.
ghost use Rattle.std.specs.Prelude.{◌≡◌, ◌<◌};
ghost use Rattle.std.specs.Option.{ForSome};
ghost use Rattle.abs_domain.specs.KnownParts.{known_byte};
ghost use Rattle.abs_step.specs.RegisterWrites.{exactly, target_number, digit_allows, target_allows};
ghost use Rattle.abs_step.specs.RegisterWrites.{is_exact, written_to};
ghost use Rattle.abs_step.specs.Safety.{blurs};
ghost use Rattle.abs_step.specs.WorkView.{target_view, write_view};

use super::pairs::Pair;
use super::scratchpad::scratchpad_after;
use abs_domain::{SCRATCHPAD_SIZE, Val};

/// A register by its two octal digits, each known or not.
#[derive(Clone, Copy)]
pub struct Target {
    pub high: Option<u8>,
    pub low: Option<u8>,
}

impl Target {
    /// The register of a number.
    pub fn exactly(number: u8) -> Target
        ensures { target_view result ≡ exactly number }
    {
        Target {
            high: Some(number / 8),
            low: Some(number % 8),
        }
    }

    /// The number of the register, where both digits are known.
    pub fn number(self) -> Option<u8>
        requires high { ForSome self.high (λ digit. digit < 8) }
        requires low { ForSome self.low (λ digit. digit < 8) }
        ensures value { result ≡ target_number (target_view self) }
        ensures range { ForSome result (λ number. number < 64) }
    {
        Some(self.high? * 8 + self.low?)
    }

    /// It may be the register of a number.
    fn allows(self, number: u8) -> bool
        ensures { result ≡ target_allows (target_view self) number }
    {
        digit_allows(self.high, number / 8) && digit_allows(self.low, number % 8)
    }

    /// It is known which register it is.
    fn is_exact(self) -> bool
        ensures { result ≡ is_exact (target_view self) }
    {
        self.high.is_some() && self.low.is_some()
    }
}

fn digit_allows(known: Option<u8>, digit: u8) -> bool
    ensures { result ≡ digit_allows known digit }
{
    match known {
        Some(known) => known == digit,
        None => true,
    }
}

/// A byte that is written to a register.
#[derive(Clone, Copy)]
pub struct Write {
    pub target: Target,
    pub value: Option<u8>,
}

impl Write {
    /// What the register of a number has after the write. One that is only perhaps written has its old byte or the new one.
    pub fn value_after(self, number: u8, old: Val) -> Val
        ensures { known_byte result ≡ written_to (write_view self) number (known_byte old) }
    {
        let value = Val::from(self.value);
        if !self.target.allows(number) {
            old
        } else if self.target.is_exact() {
            value
        } else {
            value.join(old)
        }
    }

    /// The register of a number may be written, and with what isn't known, or whether it is the one.
    pub fn blurs(self, number: u8) -> bool
        ensures { result ≡ blurs (write_view self) number }
    {
        self.target.allows(number) && (self.value.is_none() || !self.target.is_exact())
    }
}

/// What an instruction writes to the scratchpad, the first one first.
#[derive(Clone, Copy)]
pub enum Writes {
    Nothing,
    One(Write),
    Two(Write, Write),
}

impl Writes {
    ghost use Rattle.std.specs.Prelude.{map};
    ghost use Rattle.std.specs.List.{list_any};
    ghost use Rattle.abs_step.specs.KnownResults.{one_write, pair_writes};
    ghost use Rattle.abs_step.specs.RegisterWrites.{written_all};
    ghost use Rattle.abs_step.specs.WorkView.{writes_view, pair_view};

    /// A byte to the register of a number.
    pub fn one(number: u8, value: Option<u8>) -> Writes
        ensures { writes_view result ≡ one_write number value }
    {
        Writes::One(Write {
            target: Target::exactly(number),
            value,
        })
    }

    /// Two bytes to the register of a number and to the next.
    pub fn pair(number: u8, pair: Pair) -> Writes
        requires { number < 255 }
        ensures { writes_view result ≡ pair_writes number (pair_view pair) }
    {
        Writes::Two(
            Write {
                target: Target::exactly(number),
                value: pair.high,
            },
            Write {
                target: Target::exactly(number + 1),
                value: pair.low,
            },
        )
    }

    /// Some of the writes blurs the register of a number.
    pub fn any_blurs(self, number: u8) -> bool
        ensures { result ≡ list_any (λ w. blurs w number) (writes_view self) }
    {
        match self {
            Writes::Nothing => false,
            Writes::One(write) => write.blurs(number),
            Writes::Two(first, second) => first.blurs(number) || second.blurs(number),
        }
    }

    /// The scratchpad after the writes.
    pub fn scratchpad_after(self, scratchpad: &[Val; SCRATCHPAD_SIZE]) -> [Val; SCRATCHPAD_SIZE]
        ensures { map known_byte result
            ≡ written_all (writes_view self) (map known_byte scratchpad.now) }
    {
        match self {
            Writes::Nothing => *scratchpad,
            Writes::One(write) => scratchpad_after(write, scratchpad),
            Writes::Two(first, second) => {
                scratchpad_after(second, &scratchpad_after(first, scratchpad))
            },
        }
    }
}
