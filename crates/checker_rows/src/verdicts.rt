// The verdict on a small cartridge.
use super::chips::lone_cart;
use cart_checker::{Verdict, check_cart};
use console_spec::VerdictWord;
use std::test::Fail;

// LIS 1, NOP, BR to the NOP
#[test]
fn agrees_to_what_is_safe(rt: HostRuntime) -> Result<(), Fail> {
    let cart = lone_cart(rt.alloc(), &[0x71, 0x2B, 0x90, 0xFE])?;
    let verdict = check_cart(rt.alloc(), &cart)?;
    assert!(rt; verdict.word() == VerdictWord::Whole);
    match &verdict {
        Verdict::Whole(notes) => assert!(rt; notes.len() == 3),
        _ => assert!(rt; false),
    }
    Ok(())
}
