// Steps of small cartridges.
ghost use Rattle.std.specs.Prelude.{◌≡◌, ◌≤◌, None, length, replicate};

use super::chips::{lone_cart, psu, smi};
use abs_domain::{Bit, Point, Word};
use abs_step::{after, start, whole};
use cart_data::Split;
use chip_face::ChipList;
use memory_map::Map;
use std::alloc::Global;
use std::test::Fail;

// the map of a 3851 alone
fn lone(alloc: Global, code: &[u8]) -> Result<Map, Fail>
    requires { length code.now ≤ 16 }
{
    let cart = lone_cart(alloc, code)?;
    Ok(Map::of(alloc, &cart.chips)?)
}

// the map of a 3851 and a 3853
fn both(alloc: Global, code: &[u8]) -> Result<Map, Fail>
    requires { length code.now ≤ 16 }
{
    let mut chips = Vec::with_capacity(alloc, 2)?;
    chips.push(psu(alloc, code)?)?;
    chips.push(smi(alloc)?)?;
    Ok(Map::of(alloc, &ChipList::from_vec(chips))?)
}

fn point(at: u16) -> Point
    ensures { result ≡ record { at = at; ret = None; split = replicate 8 None } }
{
    Point {
        at,
        ret: None,
        split: [None; 8],
    }
}

// DCI 0005 at the start, with XDC and LM behind it
#[test]
fn loads_the_data_counter_at_the_start(rt: HostRuntime) -> Result<(), Fail> {
    let map = lone(rt.alloc(), &[0x2A, 0x00, 0x05, 0x2C, 0x16])?;
    let split = Split::new();
    let (here, state) = start(&split);
    let Ok(ways) = after(&state, &here, &split, &map) else {
        panic!(rt; "the start isn't safe");
    };
    let mut wanted = state;
    wanted.d0 = Word::Known(0x0005);
    wanted.d1 = Word::Known(0x0000);
    wanted.c = Word::Known(0x0005);
    wanted.s0 = true;
    wanted.p0 = true;
    assert!(rt; ways.len() == 1);
    assert!(rt; ways.get(0) == Some((point(0x0003), wanted)));
    Ok(())
}

// BT 2 back to itself, with a carry that isn't known
#[test]
fn takes_a_branch_first(rt: HostRuntime) -> Result<(), Fail> {
    let map = lone(rt.alloc(), &[0x82, 0xFF])?;
    let split = Split::new();
    let (here, mut unknown) = start(&split);
    unknown.w[1] = Bit::Any;
    let Ok(ways) = after(&unknown, &here, &split, &map) else {
        panic!(rt; "a branch isn't safe");
    };
    assert!(rt; ways.len() == 2);
    assert!(rt; ways.get(0) == Some((point(0x0000), unknown)));
    assert!(rt; ways.get(1) == Some((point(0x0002), unknown)));
    Ok(())
}

// where no chip holds the opcode, and where it would be RAM's
#[test]
fn points_without_an_instruction_are_whole(rt: HostRuntime) -> Result<(), Fail> {
    let map = both(rt.alloc(), &[0x16])?;
    let (_, state) = start(&Split::new());
    for at in [0x0400, 0x2800, 0xFFFF] {
        assert!(rt; whole(&state, &point(at), &map), "at {at:04X}");
    }
    Ok(())
}
