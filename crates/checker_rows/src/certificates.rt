// A map that is written and read again, one without points, and one that is verified.
use super::chips::lone_cart;
use abs_domain::{Abs, Bit, Digit, Point, Val, Word};
use abs_step::{Annotation, start};
use cart_data::Split;
use certificate::{VerifyAnswer, read_cert, verify, write_cert};
use std::collections::BTreeMap;
use std::test::Fail;

// the text of no point, which is no certificate
#[test]
fn writes_no_point(rt: HostRuntime) -> Result<(), Fail> {
    let notes = Annotation::from_map(BTreeMap::new(rt.alloc()));
    let text = write_cert(rt.alloc(), &notes, &Split::new())?;
    assert!(rt; text.as_bytes() == b"F8CERT 1 0\n".as_slice());
    Ok(())
}

// two points, of which at one more is known, with two registers tracked
#[test]
fn reads_what_it_writes(rt: HostRuntime) -> Result<(), Fail> {
    let mut split = Split::new();
    split.push(9);
    split.push(0);
    let (point, mut state) = start(&split);
    state.regs[9] = Val::Known(0xA5);
    state.hi = Digit::Known(7);
    state.w[4] = Bit::Known(true);
    state.d0 = Word::Known(0xFFFE);
    state.p1 = true;
    let mut split_bytes = [None; 8];
    split_bytes[0] = Some(0xA5);
    let called = Point {
        at: 0x0123,
        ret: Some(0xABCD),
        split: split_bytes,
    };
    let mut notes = BTreeMap::new(rt.alloc());
    notes.insert(point, start(&split).1)?;
    notes.insert(called, state)?;
    let text = write_cert(rt.alloc(), &Annotation::from_map(notes), &split)?;
    let notes = read_cert(rt.alloc(), text.as_bytes(), &split)?;
    assert!(rt; notes.len() == 2);
    assert!(rt; notes.as_map().get(&called).copied() == Some(state));
    Ok(())
}

// BR to itself
#[test]
fn finds_a_loop_whole(rt: HostRuntime) -> Result<(), Fail> {
    let cart = lone_cart(rt.alloc(), &[0x90, 0xFF])?;
    let (point, state) = start(&cart.split);
    let mut notes = BTreeMap::new(rt.alloc());
    notes.insert(point, state)?;
    let found = verify(rt.alloc(), &cart, &Annotation::from_map(notes))?;
    assert!(rt; found == VerifyAnswer::Whole);
    Ok(())
}
