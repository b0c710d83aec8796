// The search: rounds, each of which keeps the values of one part more apart.
use super::key::{Apart, MOST_APART};
use super::place::Place;
use super::round::{Ground, Halt, Round};
use abs_domain::{Point, Reason};
use case_step::Entry;
use memory_map::Map;
use std::alloc::{AllocError, Global};

/// Where a search gave up, and the reason there, or none for want of entries.
#[derive(Clone, Copy)]
pub struct GaveUp {
    pub point: Point,
    pub reason: Option<Reason>,
}

/// What a search found: a list, closed and safe as far as it can tell, and where its last round gave up that found none.
#[derive(Drop)]
pub struct Found {
    pub entries: Option<Vec<Entry>>,
    pub gave_up: Option<GaveUp>,
}

/// What a round found, and the part whose values may help when they are kept apart.
enum Step {
    /// All is found, and each read is answered.
    Whole(Vec<Entry>),

    /// All is found, but some read may be at no chip.
    Agreed(Vec<Entry>, Option<Place>),

    /// Some case isn't safe, or there are too many.
    Lost(GaveUp, Option<Place>),
}

/// One round.
fn round(alloc: Global, ground: &mut Ground<'_>, apart: &Apart) -> Result<Step, AllocError> {
    let mut round = Round::new(alloc, apart.clone()?);
    match round.run(ground) {
        Ok(()) => closed(alloc, ground, apart, round),
        Err(Halt::Memory) => Err(AllocError),
        Err(Halt::TooMany(point)) => {
            let gave_up = GaveUp {
                point,
                reason: None,
            };
            Ok(Step::Lost(gave_up, None))
        },
        Err(Halt::Refused(refused)) => {
            let wanted = round.wanted(alloc, &refused, ground.map)?;
            let cause = round.cause(alloc, wanted, apart, ground.map)?;
            let gave_up = GaveUp {
                point: refused.point,
                reason: Some(refused.reason),
            };
            Ok(Step::Lost(gave_up, cause))
        },
    }
}

/// What a round found that came to its end.
fn closed(
    alloc: Global,
    ground: &mut Ground<'_>,
    apart: &Apart,
    round: Round,
) -> Result<Step, AllocError> {
    let mut wanted = Vec::new(alloc);
    for entry in round.faults(ground)?.as_slice() {
        wanted.push((*entry, Place::D0))?;
    }
    if wanted.is_empty() {
        return Ok(Step::Whole(round.entries(alloc)?));
    }
    let cause = round.cause(alloc, wanted, apart, ground.map)?;
    Ok(Step::Agreed(round.entries(alloc)?, cause))
}

/// The best list that is found in at most 41 rounds.
pub fn search(alloc: Global, map: &Map) -> Result<Found, AllocError> {
    let mut ground = Ground::new(alloc, map)?;
    let mut apart = Apart::new();
    let mut found = Found {
        entries: None,
        gave_up: None,
    };
    for _ in 0..=MOST_APART {
        let part = match round(alloc, &mut ground, &apart)? {
            Step::Whole(entries) => {
                found.entries = Some(entries);
                break;
            },
            Step::Agreed(entries, part) => {
                if found.entries.is_none() {
                    ground.look_on();
                }
                found.entries = Some(entries);
                part
            },
            Step::Lost(gave_up, part) => {
                found.gave_up = Some(gave_up);
                part
            },
        };
        let Some(part) = part else {
            break;
        };
        if apart.try_push(part).is_err() {
            break;
        }
    }
    Ok(found)
}
