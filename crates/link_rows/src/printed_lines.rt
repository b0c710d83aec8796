// The lines of an image and of a listing, each one put, at a sink that fails.
use asm_lines::{put_image, put_listing};
use f8_asm::{Room, assemble, disassemble};
use outside::{Cut, CutList, MemSink, SinkFault};
use std::alloc::Global;
use std::test::Fail;

/// All addresses.
const EVERYWHERE: Room = Room {
    first: 0,
    last: 0xFFFF,
};

/// A sink that fails at this call, and takes so many bytes of its line first.
fn failing_sink(alloc: Global, call: u64, sent: u32) -> Result<MemSink, Fail> {
    let mut cuts = Vec::new(alloc);
    cuts.push(Cut { call, sent })?;
    Ok(MemSink::new(alloc, 1_024, CutList::from_vec(cuts))?)
}

/// Where the third put fails, two lines were written, and the part of the third that went out first.
#[test]
fn an_image_stops_at_a_failing_sink(rt: HostRuntime) -> Result<(), Fail> {
    let mut sink = failing_sink(rt.alloc(), 3, 5)?;
    let image = assemble(rt.alloc(), b"ONE: NOP\nORG 2\nTWO: NOP\n", EVERYWHERE)?;
    assert!(rt; matches!(put_image(&mut sink, &image), Err(SinkFault)));
    assert!(rt; sink.bytes() == b"0000 2B\n0002 2B\nsym O".as_slice());
    Ok(())
}

#[test]
fn a_listing_stops_at_a_failing_sink(rt: HostRuntime) -> Result<(), Fail> {
    let mut sink = failing_sink(rt.alloc(), 2, 0)?;
    let text = disassemble(rt.alloc(), &[0x71, 0x2D, 0x20])?;
    assert!(rt; matches!(put_listing(&mut sink, &text), Err(SinkFault)));
    assert!(rt; sink.bytes() == b"ORG $0000\n".as_slice());
    Ok(())
}
