// What an instruction gets of what is known.
ghost use Rattle.std.specs.Prelude.{◌≡◌, option_and_then};
ghost use Rattle.f8_spec.specs.Words.{places_on};
ghost use Rattle.abs_step.specs.Known.{known_word};
ghost use Rattle.abs_step.specs.KnownFlow.{known_inputs, known_used_byte, branch_target};
ghost use Rattle.abs_step.specs.MapView.{view_of};
ghost use Rattle.abs_step.specs.WorkView.{inputs_view};

use super::pairs::Pair;
use super::registers::Registers;
use abs_domain::Point;
use f8_ops::registers::{H, K, Q};
use f8_ops::{Op, Row};
use f8_words::wrap_add;
use memory_map::Map;

/// What an instruction gets: whether a branch is taken, its operand bytes, the byte at the data counter, the bytes of the data counter
/// and of the stack register, the accumulator, and the pairs K, Q and H of the scratchpad. Of a port's byte nothing is ever known.
#[derive(Clone, Copy)]
pub struct Inputs {
    pub taken: Option<bool>,
    pub operand: Option<u8>,
    pub second: Option<u8>,
    pub data_byte: Option<u8>,
    pub counter: Pair,
    pub stack: Pair,
    pub accumulator: Option<u8>,
    pub k: Pair,
    pub q: Pair,
    pub h: Pair,
}

impl Inputs {
    /// Those of an instruction at a point, with the data counter there.
    #[tactic(auto, unfolding(memory_map::specs::MapOf::mapped_byte))]
    pub fn at(
        op: Op,
        map: &Map,
        point: &Point,
        counter: Option<u16>,
        registers: &Registers,
    ) -> Inputs
        ensures { inputs_view result ≡ known_inputs op (view_of map.now).byte point.now.at
            point.now.ret counter registers.now }
    {
        Inputs {
            taken: registers.takes_branch(op),
            operand: map.byte(ahead(point.at, 1)),
            second: map.byte(ahead(point.at, 2)),
            data_byte: byte_at(map, counter),
            counter: Pair::of(counter),
            stack: Pair::of(point.ret),
            accumulator: registers.accumulator(),
            k: registers.pair(K),
            q: registers.pair(Q),
            h: registers.pair(H),
        }
    }

    /// The byte that the instructions of a row use.
    pub fn used_byte(&self, row: Row) -> Option<u8>
        ensures { result ≡ known_used_byte row (inputs_view self.now) }
    {
        match row {
            Row::Immediate | Row::Call | Row::Jump => self.operand,
            Row::ReadData => self.data_byte,
            _ => None,
        }
    }

    /// The word of both operand bytes.
    pub fn operands(&self) -> Option<u16>
        ensures { result ≡ known_word self.now.operand self.now.second }
    {
        let operands = Pair {
            high: self.operand,
            low: self.second,
        };
        operands.word()
    }

    /// The target of a branch, which counts from the address of its displacement byte.
    pub fn branch_target(&self, at: u16) -> Option<u16>
        ensures { result ≡ branch_target at (inputs_view self.now) }
    {
        Some(wrap_add(ahead(at, 1), self.operand?.cast_signed()))
    }
}

/// The byte that stays at an address, where both are known.
fn byte_at(map: &Map, at: Option<u16>) -> Option<u8>
    ensures { result ≡ option_and_then (view_of map.now).byte at }
{
    map.byte(at?)
}

/// The address some places on.
pub fn ahead(at: u16, by: u16) -> u16
    ensures { result ≡ places_on at by }
{
    at.wrapping_add(by)
}
