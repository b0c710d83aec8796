// What holds behind a case, part by part.
ghost use Rattle.std.specs.Prelude.{◌<◌};
ghost use Rattle.std.specs.List.{All};
ghost use Rattle.std.specs.Option.{ForSome};

use super::effects::Writes;
use super::numbers::{every_number, joined_numbers};
use super::place::Place;
use super::values::{Bytes, Numbers, Words};
use abs_domain::{Bit, SCRATCHPAD_SIZE};
use case_step::{Entry, IsarSet, Outcome, pointed_register, register_in};
use std::alloc::{AllocError, Global};
use std::array;
use value_sets::ByteSet;

/// What a case leads to, with what its instruction writes.
#[derive(Clone, Copy)]
pub struct Behind<'a> {
    pub outcome: Outcome<'a>,
    writes: &'a Writes,

    /// The registers that the instruction writes in this case, each of which may be any where it isn't known.
    registers: [Option<Option<u8>>; 2],

    /// The register that holds the accumulator's byte.
    pub same: Option<u8>,
}

impl<'a> Behind<'a> {
    /// What a case leads to.
    pub fn new(outcome: Outcome<'a>, writes: &'a Writes) -> Behind<'a> {
        let [first, second] = writes.registers;
        Behind {
            outcome,
            writes,
            registers: [
                first.map(|part| register_in(part, outcome.before)),
                second.map(|part| register_in(part, outcome.before)),
            ],
            same: outcome.same_after(),
        }
    }

    /// The accumulator.
    pub fn accumulator(&self) -> Bytes<'a> {
        let Outcome {
            entry,
            before,
            after,
            ..
        } = self.outcome;
        Bytes::behind(self.writes.accumulator, after.a, before.a, &entry.a)
    }

    /// A register is written, or may be.
    fn is_written(&self, number: u8) -> bool {
        let [first, second] = self.registers;
        first.is_some_and(|register| register.is_none_or(|own| own == number))
            || second.is_some_and(|register| register.is_none_or(|own| own == number))
    }

    /// A register, by its number below 64.
    #[inline]
    pub fn register(&self, number: u8) -> Bytes<'a> {
        let Outcome {
            entry,
            before,
            after,
            ..
        } = self.outcome;
        let place = usize::from(number);
        let values = &entry.regs[..];
        match (
            values.get(place),
            before.regs.get(place),
            after.regs.get(place),
        ) {
            (Some(values), Some(before), Some(after)) => {
                Bytes::behind(self.is_written(number), *after, *before, values)
            },
            _ => Bytes::Any,
        }
    }

    /// ISAR.
    pub fn numbers(&self) -> Numbers<'a> {
        let Outcome {
            entry,
            before,
            after,
            ..
        } = self.outcome;
        let written = self.writes.isar;
        match pointed_register(if written { after } else { before }) {
            Some(number) => Numbers::One(number),
            None if written => Numbers::Any,
            None => Numbers::Of(entry.isar.as_slice()),
        }
    }

    /// The status word.
    pub fn status(&self) -> [Bit; 5] {
        let Outcome { before, after, .. } = self.outcome;
        let mut w = if self.writes.flags { after.w } else { before.w };
        w[4] = after.w[4];
        w
    }

    /// D0, which an exchange has from D1.
    pub fn d0(&self) -> Words<'a> {
        let Outcome {
            entry,
            before,
            after,
            ..
        } = self.outcome;
        if self.writes.exchanges {
            Words::behind(false, before.d1, before.d1, &entry.d1)
        } else {
            Words::behind(self.writes.data, after.d0, before.d0, &entry.d0)
        }
    }

    /// D1, which an exchange has from D0.
    pub fn d1(&self) -> Words<'a> {
        let Outcome { entry, before, .. } = self.outcome;
        if self.writes.exchanges {
            Words::behind(false, before.d0, before.d0, &entry.d0)
        } else {
            Words::behind(false, before.d1, before.d1, &entry.d1)
        }
    }

    /// The DC0 of every 3851.
    pub fn c(&self) -> Words<'a> {
        let Outcome {
            entry,
            before,
            after,
            ..
        } = self.outcome;
        Words::behind(self.writes.data, after.c, before.c, &entry.c)
    }

    /// The value of a part by which entries may be kept apart, where it has one alone.
    pub fn single(&self, place: Place) -> Option<u16> {
        match place {
            Place::Accumulator => self.accumulator().single().map(u16::from),
            Place::Isar => self.numbers().single().map(u16::from),
            Place::D0 => self.d0().single(),
            Place::D1 => self.d1().single(),
            Place::C => self.c().single(),
            Place::Register(number) => self.register(number).single().map(u16::from),
            Place::Status(_) | Place::S0 | Place::S1 | Place::P0 | Place::P1 => None,
        }
    }

    /// A register holds the accumulator's byte, or both have the same single value.
    pub fn holds_accumulator(&self, number: u8) -> bool {
        let other = self.register(number).single();
        self.same == Some(number) || other.is_some() && self.accumulator().single() == other
    }

    /// The registers.
    fn registers(&self) -> Result<[ByteSet; SCRATCHPAD_SIZE], AllocError> {
        let mut regs = array::from_fn(|_| ByteSet::Any);
        for number in 0..64 {
            regs[usize::from(number)] = self.register(number).set()?;
        }
        Ok(regs)
    }

    /// All of it as an entry.
    pub fn entry(&self, alloc: Global) -> Result<Entry, AllocError> {
        let Outcome { point, after, .. } = self.outcome;
        Ok(Entry {
            at: point.at,
            ret: point.ret,
            a: self.accumulator().set()?,
            isar: numbers_in(self.numbers()),
            w: self.status(),
            d0: self.d0().set(alloc)?,
            d1: self.d1().set(alloc)?,
            c: self.c().set(alloc)?,
            s0: after.s0,
            s1: after.s1,
            p0: after.p0,
            p1: after.p1,
            same: register_of(self.same),
            regs: self.registers()?,
        })
    }
}

/// The numbers as a list.
pub fn numbers_in(numbers: Numbers<'_>) -> IsarSet
    ensures { All (λ number. number < 64) result.items }
{
    match numbers {
        Numbers::One(number) => joined_numbers(&[number], &[]),
        Numbers::Of(numbers) => joined_numbers(numbers, &[]),
        Numbers::Any => every_number(),
    }
}

/// The number of a register, where it is one.
pub fn register_of(number: Option<u8>) -> Option<u8>
    ensures { ForSome result (λ number. number < 64) }
{
    match number {
        Some(number) if number < 64 => Some(number),
        _ => None,
    }
}

/// The same sets once more.
fn copies_of(
    values: &[ByteSet; SCRATCHPAD_SIZE],
) -> Result<[ByteSet; SCRATCHPAD_SIZE], AllocError> {
    let mut regs = array::from_fn(|_| ByteSet::Any);
    for place in 0..SCRATCHPAD_SIZE {
        regs[place] = values[place].clone()?;
    }
    Ok(regs)
}

/// The same entry once more.
pub fn copy_of(entry: &Entry) -> Result<Entry, AllocError> {
    Ok(Entry {
        at: entry.at,
        ret: entry.ret,
        a: entry.a.clone()?,
        isar: joined_numbers(entry.isar.as_slice(), &[]),
        w: entry.w,
        d0: entry.d0.clone()?,
        d1: entry.d1.clone()?,
        c: entry.c.clone()?,
        s0: entry.s0,
        s1: entry.s1,
        p0: entry.p0,
        p1: entry.p1,
        same: register_of(entry.same),
        regs: copies_of(&entry.regs)?,
    })
}
