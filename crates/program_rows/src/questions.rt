// How many questions a machine puts to its chips, bus step by bus step.
use chip_face::{Bytes, Chip, ChipSpec, Powers};
use f8_machine::{Chain, Machine, Rack};
use psu3851::Psu;
use std::alloc::{AllocError, Global};
use std::test::Fail;

/// LIS 1, NOP, and a branch back to the NOP.
const LOOP: [u8; 4] = [0x71, 0x2B, 0x90, 0xFE];

/// The bytes of a ROM that begins with the loop, and has FF behind it.
fn looping_rom(alloc: Global) -> Result<Vec<u8>, AllocError> {
    let mut rom = vec![in alloc; 0xFFu8; 1024]?;
    for (place, byte) in rom.iter_mut().zip(LOOP.iter()) {
        *place = *byte;
    }
    Ok(rom)
}

/// How many questions were put to all chips of a rack.
fn asked_of(rack: &Rack) -> u64 {
    let mut asked: u64 = 0;
    for chip in rack {
        asked = asked.saturating_add(chip.asked());
    }
    asked
}

// Five from power-on: one for reset, one for LIS, one for NOP, and two for the branch, whose displacement is read.
#[test]
fn asks_one_chip_a_step(rt: HostRuntime) -> Result<(), Fail> {
    let rom = looping_rom(rt.alloc())?;
    assert!(rt; rom.len() == 1024);
    let spec = ChipSpec::Psu {
        base: 0,
        rom: Bytes::of(rt.alloc(), rom.as_slice())?,
        ports: 4,
        vector: 0,
        wired: false,
    };
    let mut rack: Rack = Vec::new(rt.alloc());
    rack.push(Box::new(rt.alloc(), Psu::blank())?)?;
    rack[0].fit(rt.alloc(), &spec)?;
    let mut chain = Chain::new();
    chain.push(0);
    let mut machine = Machine::power(0, chain, &Powers::new(), &mut rack);
    let powered = asked_of(&rack);
    let _reset = machine.reset(&mut rack);
    let _load = machine.instr(&mut rack);
    let _idle = machine.instr(&mut rack);
    let _branch = machine.instr(&mut rack);
    assert!(rt; asked_of(&rack).wrapping_sub(powered) == 5);
    Ok(())
}
