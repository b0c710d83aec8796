// Entries to which more values come, and whence they came.
ghost use Rattle.std.specs.Prelude.{◌<◌};
ghost use Rattle.std.specs.Option.{ForSome};

use super::behind::{Behind, numbers_in, register_of};
use super::numbers::{every_number, joined_numbers};
use super::place::Place;
use abs_domain::Bit;
use case_step::Entry;
use std::alloc::{AllocError, Global};
use std::mem;
use value_sets::{ByteSet, WordSet};

/// How often a part of an entry may get more values before it may have any.
const MOST_GROWTH: u8 = 24;

/// That a part of an entry got another value beside those that it had.
#[derive(Clone, Copy)]
pub struct Meeting {
    /// The part.
    pub place: Place,

    /// The entry whence the first of them came.
    pub from: usize,

    /// That one was one value alone.
    pub is_single: bool,

    /// How often more values came.
    times: u8,
}

/// An entry to which more values come.
#[derive(Drop)]
pub struct Growing {
    /// The entry.
    pub entry: Entry,

    /// The entry whence the first values came, or none at the start.
    pub origin: Option<usize>,

    /// The parts to which more values came.
    met: Vec<Meeting>,

    alloc: Global,
}

impl Growing {
    /// What came first.
    pub fn new(alloc: Global, entry: Entry, origin: Option<usize>) -> Growing {
        Growing {
            entry,
            origin,
            met: Vec::new(alloc),
            alloc,
        }
    }

    /// Whence the first other values of a part came.
    pub fn meeting(&self, place: Place) -> Option<Meeting> {
        self.met
            .iter()
            .find(|meeting| meeting.place == place)
            .copied()
    }

    /// Notes that more values of a part come, and tells whether they come too often.
    fn meet(&mut self, place: Place, from: usize, is_single: bool) -> Result<bool, AllocError> {
        for meeting in self.met.iter_mut() {
            if meeting.place == place {
                meeting.times = meeting.times.saturating_add(1);
                return Ok(meeting.times >= MOST_GROWTH);
            }
        }
        self.met.push(Meeting {
            place,
            from,
            is_single,
            times: 1,
        })?;
        Ok(false)
    }

    /// Adds what a case of an entry leads to, and tells whether anything is new in it.
    pub fn add(&mut self, more: &Behind<'_>, from: usize) -> Result<bool, AllocError> {
        let same = common_same(&self.entry, more);
        let mut is_new = same != self.entry.same;
        is_new |= self.add_accumulator(more, from)?;
        is_new |= self.add_numbers(more, from)?;
        is_new |= self.add_status(more, from)?;
        is_new |= self.add_counters(more, from)?;
        is_new |= self.add_facts(more, from)?;
        is_new |= self.add_registers(more, from)?;
        self.entry.same = same;
        Ok(is_new)
    }

    fn add_accumulator(&mut self, more: &Behind<'_>, from: usize) -> Result<bool, AllocError> {
        let bytes = more.accumulator();
        if bytes.are_within(&self.entry.a) {
            return Ok(false);
        }
        let is_often = self.meet(Place::Accumulator, from, bytes.single().is_some())?;
        let own = mem::replace(&mut self.entry.a, ByteSet::Any);
        self.entry.a = grown_bytes(is_often, own, &bytes.set()?);
        Ok(true)
    }

    fn add_numbers(&mut self, more: &Behind<'_>, from: usize) -> Result<bool, AllocError> {
        let numbers = more.numbers();
        if numbers.are_among(self.entry.isar.as_slice()) {
            return Ok(false);
        }
        let is_often = self.meet(Place::Isar, from, numbers.single().is_some())?;
        self.entry.isar = if is_often {
            every_number()
        } else {
            joined_numbers(self.entry.isar.as_slice(), numbers_in(numbers).as_slice())
        };
        Ok(true)
    }

    fn add_status(&mut self, more: &Behind<'_>, from: usize) -> Result<bool, AllocError> {
        let status = more.status();
        let mut is_new = false;
        for number in 0..5 {
            let place = usize::from(number);
            if status[place].below(self.entry.w[place]) {
                continue;
            }
            self.meet(Place::Status(number), from, status[place] != Bit::Any)?;
            self.entry.w[place] = Bit::Any;
            is_new = true;
        }
        Ok(is_new)
    }

    fn add_counters(&mut self, more: &Behind<'_>, from: usize) -> Result<bool, AllocError> {
        let mut is_new = false;
        let (d0, d1, c) = (more.d0(), more.d1(), more.c());
        if !d0.are_within(&self.entry.d0) {
            let is_often = self.meet(Place::D0, from, d0.single().is_some())?;
            let own = mem::replace(&mut self.entry.d0, WordSet::Any);
            self.entry.d0 = grown_words(is_often, own, &d0.set(self.alloc)?)?;
            is_new = true;
        }
        if !d1.are_within(&self.entry.d1) {
            let is_often = self.meet(Place::D1, from, d1.single().is_some())?;
            let own = mem::replace(&mut self.entry.d1, WordSet::Any);
            self.entry.d1 = grown_words(is_often, own, &d1.set(self.alloc)?)?;
            is_new = true;
        }
        if !c.are_within(&self.entry.c) {
            let is_often = self.meet(Place::C, from, c.single().is_some())?;
            let own = mem::replace(&mut self.entry.c, WordSet::Any);
            self.entry.c = grown_words(is_often, own, &c.set(self.alloc)?)?;
            is_new = true;
        }
        Ok(is_new)
    }

    fn add_facts(&mut self, more: &Behind<'_>, from: usize) -> Result<bool, AllocError> {
        let after = more.outcome.after;
        let mut is_new = false;
        if self.entry.s0 && !after.s0 {
            self.meet(Place::S0, from, false)?;
            self.entry.s0 = false;
            is_new = true;
        }
        if self.entry.s1 && !after.s1 {
            self.meet(Place::S1, from, false)?;
            self.entry.s1 = false;
            is_new = true;
        }
        if self.entry.p0 && !after.p0 {
            self.meet(Place::P0, from, false)?;
            self.entry.p0 = false;
            is_new = true;
        }
        if self.entry.p1 && !after.p1 {
            self.meet(Place::P1, from, false)?;
            self.entry.p1 = false;
            is_new = true;
        }
        Ok(is_new)
    }

    fn add_registers(&mut self, more: &Behind<'_>, from: usize) -> Result<bool, AllocError> {
        let mut is_new = false;
        for number in 0..64 {
            let place = usize::from(number);
            let (own, bytes) = (&self.entry.regs[..], more.register(number));
            if bytes.are_within(&own[place]) {
                continue;
            }
            let is_often = self.meet(Place::Register(number), from, bytes.single().is_some())?;
            grow_register(&mut self.entry.regs[..], place, is_often, &bytes.set()?);
            is_new = true;
        }
        Ok(is_new)
    }
}

/// The register that holds the accumulator's byte in the entry and in what comes.
fn common_same(own: &Entry, more: &Behind<'_>) -> Option<u8>
    ensures { ForSome result (λ number. number < 64) }
{
    if let Some(number) = own.same {
        if more.holds_accumulator(number) {
            return Some(number);
        }
    }
    let number = register_of(more.same)?;
    if holds_accumulator(own, number) {
        Some(number)
    } else {
        None
    }
}

/// An entry says that a register holds the accumulator's byte, or gives both the same single value.
fn holds_accumulator(entry: &Entry, number: u8) -> bool {
    let values = &entry.regs[..];
    let other = values.get(usize::from(number)).and_then(ByteSet::single);
    entry.same == Some(number) || other.is_some() && entry.a.single() == other
}

/// Adds the bytes of a set to those of a register, or makes them any where more come too often.
fn grow_register(regs: &mut [ByteSet], place: usize, is_often: bool, more: &ByteSet) {
    if let Some(register) = regs.get_mut(place) {
        let own = mem::replace(register, ByteSet::Any);
        *register = grown_bytes(is_often, own, more);
    }
}

/// The bytes of two sets, or any where more come too often.
fn grown_bytes(is_often: bool, own: ByteSet, more: &ByteSet) -> ByteSet {
    if is_often {
        ByteSet::Any
    } else {
        own.joined(more)
    }
}

/// The words of two sets, or any where more come too often.
fn grown_words(is_often: bool, own: WordSet, more: &WordSet) -> Result<WordSet, AllocError> {
    if is_often {
        Ok(WordSet::Any)
    } else {
        own.joined(more)
    }
}
