// The ways on behind an instruction: each exit, and behind it the vectors to which an interrupt may lead from there.
ghost use Rattle.std.specs.Prelude.{◌≡◌, ◌<◌, ◌≤◌, ◌+◌, ◌*◌, if◌then◌else◌, []};
ghost use Rattle.arrayvec.specs.ArrayVec.{array_vec_len};
ghost use Rattle.abs_domain.specs.Lattice.{common, same_bool};
ghost use Rattle.abs_step.specs.Vectors.{vector_address};
ghost use Rattle.abs_step.specs.WaysOn.{same_exit, vector_way, vector_ways, ways_along, ways_of, with_way, with_ways};
ghost use Rattle.abs_step.specs.WorkView.{exits_view};
ghost use Rattle.memory_map.specs.MapOf.{mapped_vectors};

use super::exits::{Exit, Exits};
use arrayvec::ArrayVec;
use chip_face::MOST_CHIPS;
use memory_map::Map;

/// The most ways on: two of an instruction, each with two for the vector of each chip.
pub const MOST_WAYS: usize = 2 * (1 + 2 * MOST_CHIPS);

/// A way on: the exit, and what is known of the interrupt control bit there.
#[derive(Clone, Copy, Default)]
pub struct Way {
    pub exit: Exit,
    pub icb: Option<bool>,
}

/// The ways on, each exit once.
pub type Ways = ArrayVec<Way, MOST_WAYS>;

/// Those of an instruction's exits with this of the interrupt control bit, in their order: behind each exit the vectors of the map, or none
/// where interrupts are kept out.
#[inline]
pub fn ways_of(exits: Exits, icb: Option<bool>, kept_out: bool, map: &Map) -> Ways
    ensures { result.items
        ≡ ways_of (if kept_out then [] else mapped_vectors map.now) icb (exits_view exits) }
{
    let mut ways = Ways::new();
    match exits {
        Exits::Nowhere => {},
        Exits::One(exit) => add_along(&mut ways, exit, icb, kept_out, map),
        Exits::Two(first, second) => {
            add_along(&mut ways, first, icb, kept_out, map);
            add_along(&mut ways, second, icb, kept_out, map);
        },
    }
    ways
}

/// Adds an exit, and the vectors behind it.
fn add_along(ways: &mut Ways, exit: Exit, icb: Option<bool>, kept_out: bool, map: &Map)
    requires { array_vec_len ways.old ≤ 1 + 2 * MOST_CHIPS }
    ensures list { ways.new.items ≡ with_ways (ways_along
        (if kept_out then [] else mapped_vectors map.now) icb exit) ways.old.items }
    ensures count { array_vec_len ways.new ≤ array_vec_len ways.old + 1 + 2 * MOST_CHIPS }
{
    add(ways, Way { exit, icb });
    if kept_out {
        return;
    }
    for place in 0..MOST_CHIPS {
        match map.vector(place as u8) {
            Some(vector) => add_vector(ways, exit, vector),
            None => return,
        }
    }
}

/// Adds both addresses that a chip may give with its vector: for its timer, and for a pulse.
fn add_vector(ways: &mut Ways, exit: Exit, vector: u16)
    requires { array_vec_len ways.old + 2 ≤ MOST_WAYS }
    ensures list { ways.new.items ≡ with_ways (vector_ways exit vector) ways.old.items }
    ensures count { array_vec_len ways.new ≤ array_vec_len ways.old + 2 }
{
    add(ways, vector_way(true, exit, vector));
    add(ways, vector_way(false, exit, vector));
}

/// An interrupt that leads from an exit to a vector.
fn vector_way(timer: bool, exit: Exit, vector: u16) -> Way
    ensures { result ≡ vector_way timer exit vector }
{
    Way {
        exit: Exit {
            at: vector_address(timer, vector),
            ret: Some(exit.at),
        },
        icb: Some(false),
    }
}

/// The address that a chip gives with its vector, for its timer or for a pulse.
fn vector_address(timer: bool, vector: u16) -> u16
    ensures { result ≡ vector_address timer vector }
{
    let source = if timer { 0 } else { 128 };
    vector / 256 * 256 + source + vector % 128
}

/// Adds a way. Where its exit is there already, what is known of both interrupt control bits is joined.
fn add(ways: &mut Ways, way: Way)
    requires { array_vec_len ways.old < MOST_WAYS }
    ensures list { ways.new.items ≡ with_way way ways.old.items }
    ensures count { array_vec_len ways.new ≤ array_vec_len ways.old + 1 }
{
    for place in 0..ways.len() {
        let other = ways[place];
        if is_same(way.exit, other.exit) {
            ways[place] = Way {
                exit: other.exit,
                icb: common(other.icb, way.icb),
            };
            return;
        }
    }
    ways.push(way);
}

/// Two exits are one.
fn is_same(first: Exit, second: Exit) -> bool
    ensures { result ≡ same_exit first second }
{
    first.at == second.at && first.ret == second.ret
}

/// What both know of a bit.
fn common(first: Option<bool>, second: Option<bool>) -> Option<bool>
    ensures { result ≡ common same_bool first second }
{
    if first == second { first } else { None }
}
