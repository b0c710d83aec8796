// Why too little is known at an entry: where the values of a part came together that would have to be known one by one.
use super::effects::add_sources;
use super::key::Apart;
use super::place::Place;
use super::round::{Refused, Round};
use abs_domain::Reason;
use abs_step::instruction_at;
use f8_ops::registers::{K, Q};
use f8_ops::{Row, row_of};
use f8_spec::ChipKind;
use memory_map::Map;
use std::alloc::{AllocError, Global};
use std::collections::BTreeSet;

/// A part of the entry at a place.
pub type Wanted = (usize, Place);

/// The most parts of entries at which is looked for a cause.
const MOST_LOOKS: u32 = 1_000_000;

/// Adds both registers of a pair, the low one first.
fn add_pair(out: &mut Vec<Wanted>, entry: usize, high: u8) -> Result<(), AllocError> {
    out.push((entry, Place::Register(high.wrapping_add(1))))?;
    out.push((entry, Place::Register(high)))?;
    Ok(())
}

impl Round {
    /// The parts that would have to be known where a case isn't safe. Where the reason names none, they are the registers by which calls,
    /// jumps and returns on the way there went.
    pub fn wanted(
        &self,
        alloc: Global,
        refused: &Refused,
        map: &Map,
    ) -> Result<Vec<Wanted>, AllocError> {
        let mut wanted = Vec::new(alloc);
        let (entry, case) = (refused.entry, &refused.case);
        match refused.reason {
            Reason::UnknownJump | Reason::UnknownReturn => {
                self.add_pairs(&mut wanted, entry, map)?;
            },
            Reason::DataCountersApart if map.any(ChipKind::Smi) && !case.s0 => {
                wanted.push((entry, Place::S0))?;
            },
            Reason::DataCountersApart => {
                wanted.push((entry, Place::C))?;
                wanted.push((entry, Place::P0))?;
            },
            Reason::UnknownVector => wanted.push((entry, Place::Status(4)))?,
            Reason::SharedDataAddress => wanted.push((entry, Place::D0))?,
            _ => self.add_ways(&mut wanted, entry, map)?,
        }
        Ok(wanted)
    }

    /// Adds the pair of registers by which the instruction of an entry goes.
    fn add_pairs(&self, out: &mut Vec<Wanted>, entry: usize, map: &Map) -> Result<(), AllocError> {
        let Some(growing) = self.found.get(entry) else {
            return Ok(());
        };
        let Some(op) = instruction_at(map, growing.entry.at) else {
            return Ok(());
        };
        match row_of(op) {
            Row::StackFromK | Row::CallK => add_pair(out, entry, K),
            Row::JumpQ => add_pair(out, entry, Q),
            _ => Ok(()),
        }
    }

    /// Adds such pairs of all entries on the way to one, from it back to the start.
    fn add_ways(&self, out: &mut Vec<Wanted>, entry: usize, map: &Map) -> Result<(), AllocError> {
        let mut place = entry;
        for _ in 0..self.found.len() {
            let Some(origin) = self.found.get(place).and_then(|growing| growing.origin) else {
                break;
            };
            self.add_pairs(out, origin, map)?;
            place = origin;
        }
        Ok(())
    }

    /// The part whose values came together on the way to parts that are wanted, the nearest one: kept apart, they may be known one by one.
    pub fn cause(
        &self,
        alloc: Global,
        wanted: Vec<Wanted>,
        apart: &Apart,
        map: &Map,
    ) -> Result<Option<Place>, AllocError> {
        let mut seen = BTreeSet::new(alloc);
        let mut sources = Vec::new(alloc);
        let mut due = wanted;
        let mut next = 0;
        for _ in 0..MOST_LOOKS {
            let Some((entry, place)) = due.get(next).copied() else {
                break;
            };
            next += 1;
            if !seen.insert((entry, place))? {
                continue;
            }
            let Some(growing) = self.found.get(entry) else {
                continue;
            };
            let meeting = growing.meeting(place);
            if let Some(meeting) = meeting {
                if meeting.is_single && place.may_be_apart() && !apart.contains(&place) {
                    return Ok(Some(place));
                }
            }
            self.add_behind(&mut due, &mut sources, growing.origin, place, map)?;
            let other = meeting.map(|meeting| meeting.from);
            if other != growing.origin {
                self.add_behind(&mut due, &mut sources, other, place, map)?;
            }
        }
        Ok(None)
    }

    /// Adds the parts of an entry of which its instruction makes a part.
    fn add_behind(
        &self,
        due: &mut Vec<Wanted>,
        sources: &mut Vec<Place>,
        origin: Option<usize>,
        place: Place,
        map: &Map,
    ) -> Result<(), AllocError> {
        let Some(origin) = origin else {
            return Ok(());
        };
        let Some(growing) = self.found.get(origin) else {
            return Ok(());
        };
        let Some(op) = instruction_at(map, growing.entry.at) else {
            return Ok(());
        };
        sources.clear();
        add_sources(sources, op, &growing.entry, place)?;
        for source in sources.as_slice() {
            due.push((origin, *source))?;
        }
        Ok(())
    }
}
