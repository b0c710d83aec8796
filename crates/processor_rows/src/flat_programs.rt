// An interrupt on a flat memory.
ghost use Rattle.std.specs.Prelude.{◌≤◌, length};

use super::chips::two_chips;
use chip_face::Powers;
use f8_isa::{Done, Isa, Reserved};
use memory_map::Map;
use std::alloc::Global;
use std::process::Abort;
use std::test::Fail;

// these bytes in a 3851 at 0000, beside a 3853
fn program(alloc: Global, bytes: &[u8]) -> Result<Isa, Fail>
    requires { length bytes.now ≤ 1024 }
{
    let chips = two_chips(alloc, bytes, true)?;
    let map = Map::of(alloc, &chips)?;
    let powers = Powers::usual(chips.as_slice().len());
    Ok(Isa::new(alloc, &map, &chips, &powers, 0x5A)?)
}

fn step(rt: &impl Abort, isa: &mut Isa) -> Result<Done, Reserved> {
    assert!(rt; isa.phi() < 100_000);
    isa.step()
}

// Control 1: pulses at another chip and at no chip, and then one at the chip, whose interrupt leads to its vector with bit 7 set. No
// command's pulse comes to this machine at an instruction of one's choice.
#[test]
fn interrupt_of_a_pulse(rt: HostRuntime) -> Result<(), Fail> {
    let mut isa = program(rt.alloc(), &[0x71, 0xB6, 0x1B, 0x2B, 0x2B])?;
    for _ in 0..3 {
        let _done = step(&rt, &mut isa)?;
    }
    isa.pulse(1);
    isa.pulse(2);
    let done = step(&rt, &mut isa)?;
    assert!(rt; !done.vectored);
    isa.pulse(0);
    let done = step(&rt, &mut isa)?;
    assert!(rt; done.vectored);
    let regs = isa.regs();
    assert!(rt; [regs.p, regs.p1, regs.d0, regs.d1] == [0x0180, 0x0005, 0x0000, 0x0000]);
    Ok(())
}
