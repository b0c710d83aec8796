// The chips of a number, byte by byte where they are given.
use chip_face::ChipSpec;
use generator::{generated_chips, scratch_sum};
use std::process::Abort;
use std::test::Fail;

/// Twelve 3851s stand one behind the other, and each has the next four ports.
#[test]
fn chips_in_a_row(rt: HostRuntime) -> Result<(), Fail> {
    let chips = generated_chips(rt.alloc(), 1)?;
    assert!(rt; chips.len() == 12);
    for (number, chip) in chips.as_slice().iter().enumerate() {
        let ChipSpec::Psu {
            base,
            rom,
            ports,
            vector,
            wired,
        } = chip
        else {
            return Err("a chip is no 3851".into());
        };
        assert!(rt; usize::from(*base) / 1_024 == number);
        assert!(rt; usize::from(*base) % 1_024 == 0);
        assert!(rt; rom.len() == 1_024);
        assert!(rt; usize::from(*ports) / 4 == number + 1);
        assert!(rt; usize::from(*ports) % 4 == 0);
        assert!(rt; *vector == 0);
        assert!(rt; !*wired);
    }
    Ok(())
}

/// The bytes at a chip's ROM from a place on are these.
fn holds(rt: &impl Abort, chip: Option<&ChipSpec>, place: usize, bytes: &[u8]) {
    let rom = match chip {
        Some(ChipSpec::Psu { rom, .. }) => rom.as_slice(),
        _ => &[],
    };
    assert!(rt; place <= rom.len() && bytes.len() <= rom.len() - place);
    assert!(rt; &rom[place..place + bytes.len()] == bytes);
}

/// The seed 1 draws 3C, 5E and 81 first, and a jump to address 0 ends its bytes.
#[test]
fn bytes_of_seed_one(rt: HostRuntime) -> Result<(), Fail> {
    let chips = generated_chips(rt.alloc(), 1)?;
    holds(&rt, chips.as_slice().first(), 0, &[0xE3, 0x33, 0x13]);
    holds(&rt, chips.as_slice().last(), 1_021, &[0x29, 0x00, 0x00]);
    Ok(())
}

#[test]
fn sum_of_a_scratchpad(rt: HostRuntime) {
    assert!(rt; scratch_sum(&[0xFF; 64]) == 16_320);
    let mut scratch = [0; 64];
    scratch[0] = 2;
    scratch[63] = 3;
    assert!(rt; scratch_sum(&scratch) == 5);
}
