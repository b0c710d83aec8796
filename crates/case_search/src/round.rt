// One round of the search: from the start to all that entries lead to, with some parts whose values are kept apart.
ghost use Rattle.std.specs.Prelude.{◌≡◌, None, replicate};

use super::behind::{Behind, copy_of};
use super::effects::Writes;
use super::growing::Growing;
use super::key::{Apart, Key};
use super::live::Live;
use super::numbers::every_number;
use abs_domain::{Abs, Bit, MOST_TRACKED, Point, Reason};
use abs_step::{after, instruction_at, whole};
use cart_data::Split;
use case_step::{Cases, Entry, Outcome};
use f8_ops::Op;
use memory_map::Map;
use std::alloc::{AllocError, Global};
use std::array;
use std::collections::{BTreeMap, BTreeSet};
use value_sets::{ByteSet, WordSet};

/// The most entries.
const MOST_ENTRIES: usize = 65_536;

/// What all rounds of a search stand on.
#[derive(Drop)]
pub struct Ground<'a> {
    alloc: Global,
    pub map: &'a Map,
    live: Live,
    cases: Cases,

    /// How many results may still be looked at.
    left: usize,
}

/// The most results that are looked at.
const MOST_WORK: usize = 8_000_000;

/// The most results that are still looked at once a list is found.
const MOST_AFTER: usize = 250_000;

impl<'a> Ground<'a> {
    /// That of a cartridge.
    pub fn new(alloc: Global, map: &'a Map) -> Result<Ground<'a>, AllocError> {
        Ok(Ground {
            alloc,
            map,
            live: Live::of(alloc, map)?,
            cases: Cases::new(alloc),
            left: MOST_WORK,
        })
    }

    /// A list is found, so not much more is looked at.
    pub fn look_on(&mut self) {
        self.left = self.left.min(MOST_AFTER);
    }
}

/// Why a round ends before all is found.
pub enum Halt {
    /// Memory is missing.
    Memory,

    /// There are more entries, or results, than may be: the point of the entry that was looked at, or that is one too many.
    TooMany(Point),

    /// A case of an entry isn't safe.
    Refused(Refused),
}

/// A case that isn't safe.
#[derive(Clone, Copy)]
pub struct Refused {
    /// The entry's place.
    pub entry: usize,

    /// The entry's point.
    pub point: Point,

    /// The case.
    pub case: Abs,

    /// The reason.
    pub reason: Reason,
}

impl From<AllocError> for Halt {
    fn from(_: AllocError) -> Halt {
        Halt::Memory
    }
}

/// An entry that is looked at, with its instruction and what that writes.
#[derive(Clone, Copy)]
struct Visit<'a> {
    place: usize,
    entry: &'a Entry,
    op: Option<Op>,
    writes: Option<Writes>,
}

/// What is found in a round.
#[derive(Drop)]
pub struct Round {
    apart: Apart,
    pub found: Vec<Growing>,
    keys: BTreeMap<Key, usize>,

    /// The entries that are to be looked at, or looked at again, by their addresses and returns.
    due: BTreeSet<(u16, Option<u16>, usize)>,
}

impl Round {
    /// Nothing is found yet.
    pub fn new(alloc: Global, apart: Apart) -> Round {
        Round {
            apart,
            found: Vec::new(alloc),
            keys: BTreeMap::new(alloc),
            due: BTreeSet::new(alloc),
        }
    }

    /// Goes from the start to all that it leads to.
    pub fn run(&mut self, ground: &mut Ground<'_>) -> Result<(), Halt> {
        self.start(ground)?;
        for _ in 0..MOST_WORK {
            let Some((at, ret, place)) = self.due.pop_first() else {
                break;
            };
            if ground.left == 0 {
                return Err(Halt::TooMany(untracked(at, ret)));
            }
            ground.left -= 1;
            self.visit(ground, place)?;
        }
        Ok(())
    }

    /// The start is found, and due.
    fn start(&mut self, ground: &Ground<'_>) -> Result<(), AllocError> {
        let entry = start_entry(ground.alloc)?;
        let key = Key::of_start(&entry, ground.live.flags(0), self.apart.as_slice());
        self.begin(key, Growing::new(ground.alloc, entry, None))
    }

    /// Looks at an entry: adds all that its cases lead to, unless one isn't safe.
    fn visit(&mut self, ground: &mut Ground<'_>, place: usize) -> Result<(), Halt> {
        let Some(growing) = self.found.get(place) else {
            return Ok(());
        };
        let entry = copy_of(&growing.entry)?;
        let op = instruction_at(ground.map, entry.at);
        ground.cases.fill(op, &entry)?;
        let count = ground.cases.as_slice().len();
        let seen = Visit {
            place,
            entry: &entry,
            op,
            writes: op.map(Writes::of),
        };
        for number in 0..count {
            let Some(case) = ground.cases.as_slice().get(number).copied() else {
                break;
            };
            let results = self.follow(ground, &seen, &case)?;
            ground.left = ground.left.saturating_sub(results);
        }
        Ok(())
    }

    /// Adds all that a case leads to, unless it isn't safe, and tells how many results it has.
    fn follow(&mut self, ground: &Ground<'_>, seen: &Visit<'_>, case: &Abs) -> Result<usize, Halt> {
        let point = point_of(seen.entry);
        let ways = match after(case, &point, &Split::new(), ground.map) {
            Ok(ways) => ways,
            Err(reason) => {
                return Err(Halt::Refused(Refused {
                    entry: seen.place,
                    point,
                    case: *case,
                    reason,
                }));
            },
        };
        let (Some(op), Some(writes)) = (seen.op, &seen.writes) else {
            return Ok(0);
        };
        for way in 0..ways.len() {
            if let Some((point, state)) = ways.get(way) {
                let outcome = Outcome {
                    op,
                    entry: seen.entry,
                    before: case,
                    point,
                    after: &state,
                };
                self.add(ground, &Behind::new(outcome, writes), seen.place)?;
            }
        }
        Ok(ways.len())
    }

    /// Adds what holds behind a case of an entry: to that which is like it, or beside all others.
    fn add(&mut self, ground: &Ground<'_>, more: &Behind<'_>, from: usize) -> Result<(), Halt> {
        let (at, ret) = (more.outcome.point.at, more.outcome.point.ret);
        let key = Key::of(more, ground.live.flags(at), self.apart.as_slice());
        let Some(place) = self.keys.get(&key).copied() else {
            if self.found.len() >= MOST_ENTRIES {
                return Err(Halt::TooMany(more.outcome.point));
            }
            let entry = more.entry(ground.alloc)?;
            self.begin(key, Growing::new(ground.alloc, entry, Some(from)))?;
            return Ok(());
        };
        if let Some(own) = self.found.get_mut(place) {
            if own.add(more, from)? {
                self.make_due(at, ret, place)?;
            }
        }
        Ok(())
    }

    /// A new entry, behind all others, is to be looked at.
    fn begin(&mut self, key: Key, growing: Growing) -> Result<(), AllocError> {
        let (at, ret, place) = (growing.entry.at, growing.entry.ret, self.found.len());
        self.keys.insert(key, place)?;
        self.found.push(growing)?;
        self.make_due(at, ret, place)
    }

    /// An entry is to be looked at.
    fn make_due(&mut self, at: u16, ret: Option<u16>, place: usize) -> Result<(), AllocError> {
        self.due.insert((at, ret, place))?;
        Ok(())
    }

    /// The entries some case of which may read where no chip answers.
    pub fn faults(&self, ground: &mut Ground<'_>) -> Result<Vec<usize>, AllocError> {
        let map = ground.map;
        let mut faults = Vec::new(ground.alloc);
        for (place, growing) in self.found.iter().enumerate() {
            let entry = &growing.entry;
            ground.cases.fill(instruction_at(map, entry.at), entry)?;
            if !are_answered(entry, ground.cases.as_slice(), map) {
                faults.push(place)?;
            }
        }
        Ok(faults)
    }

    /// The entries that are found.
    pub fn entries(self, alloc: Global) -> Result<Vec<Entry>, AllocError> {
        let mut entries = Vec::with_capacity(alloc, self.found.len())?;
        for growing in self.found {
            entries.push(growing.entry)?;
        }
        Ok(entries)
    }
}

/// Each read of the cases of an entry is answered.
fn are_answered(entry: &Entry, cases: &[Abs], map: &Map) -> bool {
    let point = point_of(entry);
    cases.iter().all(|case| whole(case, &point, map))
}

/// The point of an address and a return, where no register is tracked.
pub fn untracked(address: u16, back: Option<u16>) -> Point
    ensures { result ≡ record { at = address; ret = back; split = replicate 8 None } }
{
    Point {
        at: address,
        ret: back,
        split: [None; MOST_TRACKED],
    }
}

/// The point of an entry.
fn point_of(entry: &Entry) -> Point
    ensures { result ≡ record { at = entry.now.at; ret = entry.now.ret; split = replicate 8 None } }
{
    untracked(entry.at, entry.ret)
}

/// The word 0.
fn nought(alloc: Global) -> Result<WordSet, AllocError> {
    let mut words = Vec::new(alloc);
    words.push(0)?;
    Ok(WordSet::Among(words))
}

/// The start, as reset leaves the F8.
fn start_entry(alloc: Global) -> Result<Entry, AllocError> {
    Ok(Entry {
        at: 0,
        ret: None,
        a: ByteSet::Any,
        isar: every_number(),
        w: [Bit::Known(false); 5],
        d0: nought(alloc)?,
        d1: nought(alloc)?,
        c: WordSet::Any,
        s0: false,
        s1: false,
        p0: false,
        p1: false,
        same: None,
        regs: array::from_fn(|_| ByteSet::Any),
    })
}
