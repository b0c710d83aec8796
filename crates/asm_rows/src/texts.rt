// An assembly text with its image, one that leaves its room, and bytes that are listed.
use f8_asm::{AsmAnswer, AsmCause, AsmFault, Room, assemble, disassemble};
use std::test::Fail;

/// The first three addresses.
const ROOM: Room = Room { first: 0, last: 2 };

#[test]
fn a_text_has_an_image(rt: HostRuntime) -> Result<(), Fail> {
    let image = assemble(rt.alloc(), b"LOOP: NOP\nBR LOOP", ROOM)?;
    assert!(rt; image.bytes() == [(0, 0x2B), (1, 0x90), (2, 0xFE)].as_slice());
    assert!(rt; image.symbol(0) == Some(("LOOP", 0)));
    Ok(())
}

#[test]
fn a_text_leaves_its_room(rt: HostRuntime) -> Result<(), Fail> {
    let told = assemble(rt.alloc(), b" DW 1,2", ROOM);
    let wanted = AsmFault {
        line: 1,
        column: 2,
        cause: AsmCause::Outside,
    };
    assert!(rt; matches!(told, Err(AsmAnswer::Fault(fault)) if fault == wanted));
    assert!(rt; AsmCause::Outside.number() == 8);
    Ok(())
}

#[test]
fn bytes_are_listed(rt: HostRuntime) -> Result<(), Fail> {
    let text = disassemble(rt.alloc(), &[0x71, 0x2D])?;
    assert!(rt; text.as_bytes() == b"ORG $0000\nLIS 1\nDB $2D\n".as_slice());
    Ok(())
}
