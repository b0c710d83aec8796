// An instruction that is put back.
use cpu3850::Cpu;
use std::process::Abort;
use std::test::Fail;

/// One step of the instruction held, with its byte. Answers the byte that the CPU drives.
fn step(rt: &impl Abort, cpu: &mut Cpu, index: usize, byte: u8) -> Result<u8, Fail> {
    let plan = cpu.plan()?;
    assert!(rt; index < plan.len());
    let index = index as u8;
    let driven = cpu.drive(index);
    cpu.take(index, byte);
    Ok(driven)
}

// `OUTS 0` whose fetch isn't served leaves the latch
#[test]
fn latch_before_an_unserved_fetch(rt: HostRuntime) -> Result<(), Fail> {
    let mut cpu = Cpu::power(0x5A);
    cpu.fetch(0xB0);
    let kept = cpu.kept();
    step(&rt, &mut cpu, 0, 0x00)?;
    assert!(rt; cpu.ports() == [0x5A, 0x00]);
    cpu.restore(kept);
    assert!(rt; cpu.ports() == [0x00, 0x00]);
    assert!(rt; cpu.opcode() == 0xB0);
    Ok(())
}
