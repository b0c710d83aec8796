// What tells entries apart in a search: those that are alike in it become one.
use super::behind::Behind;
use super::live::LiveFlags;
use super::place::Place;
use abs_domain::Bit;
use arrayvec::ArrayVec;
use case_step::Entry;

/// The most parts by whose values entries are kept apart.
pub const MOST_APART: usize = 40;

/// The parts by whose values entries are kept apart.
pub type Apart = ArrayVec<Place, MOST_APART>;

/// The address and the return, the interrupt control bit and each flag that is read before it is written, and the value of each part by which
/// entries are kept apart, where it has one alone.
#[derive(Drop, PartialEq, Eq, PartialOrd, Ord)]
pub struct Key {
    at: u16,
    ret: Option<u16>,
    status: [Option<bool>; 5],
    values: ArrayVec<Option<u16>, MOST_APART>,
}

impl Key {
    /// That of the start.
    pub fn of_start(entry: &Entry, live: LiveFlags, apart: &[Place]) -> Key {
        let mut values = ArrayVec::new();
        for place in apart {
            if values.try_push(place.single_in(entry)).is_err() {
                break;
            }
        }
        Key {
            at: entry.at,
            ret: entry.ret,
            status: counting(&entry.w, live),
            values,
        }
    }

    /// That of what holds behind a case.
    pub fn of(more: &Behind<'_>, live: LiveFlags, apart: &[Place]) -> Key {
        let mut values = ArrayVec::new();
        for place in apart {
            if values.try_push(more.single(*place)).is_err() {
                break;
            }
        }
        Key {
            at: more.outcome.point.at,
            ret: more.outcome.point.ret,
            status: counting(&more.status(), live),
            values,
        }
    }
}

/// The interrupt control bit, and the flags that count.
fn counting(status: &[Bit; 5], live: LiveFlags) -> [Option<bool>; 5] {
    let mut found = [None; 5];
    for place in 0..4 {
        if live[place] {
            found[place] = status[place].known();
        }
    }
    found[4] = status[4].known();
    found
}
