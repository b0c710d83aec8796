// A tape of a machine on one chip: what was done is played again, dropped from a place on, and forgotten at power-on.
ghost use Rattle.std.specs.Prelude.{◌≡◌, ◌≤◌, [], false, IfOk, length, map};
ghost use Rattle.chip_face.specs.Fitting.{IsSpec, is_blank};
ghost use Rattle.f8_machine.specs.Fitting.{Fits};
ghost use Rattle.rewind.specs.declared.tape_mode.TapeMode.TheVariants.{Going};

use chip_face::{Bytes, Chip, ChipList, ChipSpec, MOST_CHIPS, Powers};
use f8_machine::{Chain, Outcome, Rack};
use psu3851::Psu;
use rack_run::fit_all;
use rewind::Tape;
use std::alloc::Global;
use std::process::Abort;
use std::test::Fail;

/// LIS 1 and OUTS 6, so that a pulse makes a request, EI, INS 4 and NOP.
const PROGRAM: [u8; 5] = [0x71, 0xB6, 0x1B, 0xA4, 0x2B];

/// The chip's vector, and where the interrupt of a pulse leads by it: to another INS 4.
const VECTOR: u16 = 0x0100;

const LED_TO: usize = 0x0180;

const INS: u8 = 0xA4;

/// The chip: the program from 0000 on, and FF in all other places.
fn psu(rt: &impl Abort, alloc: Global) -> Result<ChipSpec, Fail>
    ensures specified { IfOk result IsSpec }
    ensures no_blank { IfOk result (λ chip. is_blank chip ≡ false) }
{
    let mut rom = vec![in alloc; 0xFFu8; 1024]?;
    for (place, byte) in rom.iter_mut().zip(PROGRAM.iter()) {
        *place = *byte;
    }
    assert!(rt; rom.len() == 1024);
    rom[LED_TO] = INS;
    Ok(ChipSpec::Psu {
        base: 0,
        rom: Bytes::from_vec(rom),
        ports: 4,
        vector: VECTOR,
        wired: true,
    })
}

/// A description of this chip alone.
fn lone(alloc: Global, chip: ChipSpec) -> Result<ChipList, Fail>
    requires specified { IsSpec chip }
    requires no_blank { is_blank chip ≡ false }
{
    let mut chips = Vec::with_capacity(alloc, 1)?;
    chips.push(chip)?;
    Ok(ChipList::from_vec(chips))
}

/// The next instruction is done.
fn go(rt: &impl Abort, tape: &mut Tape, rack: &mut Rack)
    requires few { length rack.old.items ≤ MOST_CHIPS }
    requires ended { tape.old.log.left ≡ [] }
    requires goes { tape.old.mode ≡ Going }
    requires fits { Fits tape.old.machine (map state rack.old.items) }
    ensures few { length rack.new.items ≤ MOST_CHIPS }
    ensures ended { tape.new.log.left ≡ [] }
    ensures goes { tape.new.mode ≡ Going }
    ensures fits { Fits tape.new.machine (map state rack.new.items) }
    ensures spare { tape.new.log.spare ≡ tape.old.log.spare }
{
    assert!(rt; tape.place() < u32::MAX);
    match tape.instr(rack) {
        Outcome::Done { .. } => {}
        Outcome::Fault { .. } | Outcome::Reserved { .. } => panic!(rt; "not done"),
    }
}

/// The next instruction is done again.
fn go_again(rt: &impl Abort, tape: &mut Tape, rack: &mut Rack)
    requires few { length rack.old.items ≤ MOST_CHIPS }
    requires fits { Fits tape.old.machine (map state rack.old.items) }
    ensures few { length rack.new.items ≤ MOST_CHIPS }
    ensures goes { tape.new.mode ≡ tape.old.mode }
    ensures fits { Fits tape.new.machine (map state rack.new.items) }
{
    let outcome = tape.forward(rack);
    assert!(rt; matches!(outcome, Some(Outcome::Done { .. })));
}

/// How many instructions were played, how many there are, and the room for events.
type Counts = (u32, u32, u32);

/// PC0, PC1, A and the clocks.
type At = (u16, u16, u8, u64);

/// The tape is begun, and stands there.
fn check(rt: &impl Abort, tape: &Tape, counts: Counts, at: At) {
    assert!(rt; tape.is_begun());
    assert!(rt; (tape.place(), tape.length(), tape.spare()) == counts);
    let regs = tape.machine().regs();
    let now = (regs.p, regs.p1, regs.a, tape.machine().phi());
    assert!(rt; now == at, "after {counts:?}");
}

/// The tape of the chip after the program: a key byte came before INS 4, a pulse before NOP, and another key byte behind it. Reset takes 14
/// clocks, the instructions 4, 16, 8 and 16, and NOP with the interrupt 26.
fn played(rt: &impl Abort, alloc: Global, rack: &mut Rack) -> Result<Tape, Fail>
    requires few { length rack.old.items ≤ MOST_CHIPS }
    ensures few { length rack.new.items ≤ MOST_CHIPS }
    ensures goes { IfOk result (λ tape. tape.mode ≡ Going) }
    ensures fits { IfOk result (λ tape. Fits tape.machine (map state rack.new.items)) }
{
    fit_all(alloc, &lone(alloc, psu(rt, alloc)?)?, rack)?;
    let mut chain = Chain::new();
    chain.push(0);
    let (mut tape, reset) = Tape::start(alloc, 0x5A, chain, Powers::usual(1), 3, rack)?;
    assert!(rt; matches!(reset, Outcome::Done { .. }));
    check(rt, &tape, (0, 0, 3), (0x0000, 0x0000, 0x5A, 14));
    go(rt, &mut tape, rack);
    go(rt, &mut tape, rack);
    go(rt, &mut tape, rack);
    tape.keys(rack, 4, 0x30);
    go(rt, &mut tape, rack);
    tape.pulse(rack, 0);
    go(rt, &mut tape, rack);
    tape.keys(rack, 4, 0x0F);
    check(rt, &tape, (5, 5, 0), (0x0180, 0x0005, 0x30, 84));
    Ok(tape)
}

/// All is done again, and then the INS 4 to which the interrupt led reads the last key byte.
#[test]
fn plays_again(rt: HostRuntime) -> Result<(), Fail> {
    let mut rack: Rack = Vec::new(rt.alloc());
    rack.push(Box::new(rt.alloc(), Psu::blank())?)?;
    let mut tape = played(&rt, rt.alloc(), &mut rack)?;
    tape.rewind(&mut rack);
    check(&rt, &tape, (0, 5, 0), (0x0000, 0x0000, 0x5A, 14));
    go_again(&rt, &mut tape, &mut rack);
    go_again(&rt, &mut tape, &mut rack);
    go_again(&rt, &mut tape, &mut rack);
    go_again(&rt, &mut tape, &mut rack);
    go_again(&rt, &mut tape, &mut rack);
    check(&rt, &tape, (5, 5, 0), (0x0180, 0x0005, 0x30, 84));
    let none = tape.forward(&mut rack);
    assert!(rt; none.is_none());
    tape.finish(&mut rack);
    go(&rt, &mut tape, &mut rack);
    check(&rt, &tape, (6, 6, 0), (0x0181, 0x0005, 0x0F, 100));
    Ok(())
}

/// All behind EI is dropped, so INS 4 reads no key byte. Then the chip is powered on with another byte.
#[test]
fn drops_what_was_done(rt: HostRuntime) -> Result<(), Fail> {
    let mut rack: Rack = Vec::new(rt.alloc());
    rack.push(Box::new(rt.alloc(), Psu::blank())?)?;
    let mut tape = played(&rt, rt.alloc(), &mut rack)?;
    tape.rewind(&mut rack);
    go_again(&rt, &mut tape, &mut rack);
    go_again(&rt, &mut tape, &mut rack);
    go_again(&rt, &mut tape, &mut rack);
    tape.cut();
    check(&rt, &tape, (3, 3, 3), (0x0003, 0x0000, 0x01, 42));
    go(&rt, &mut tape, &mut rack);
    check(&rt, &tape, (4, 4, 3), (0x0004, 0x0000, 0x00, 58));
    let reset = tape.power(0x33, &mut rack);
    assert!(rt; matches!(reset, Outcome::Done { .. }));
    check(&rt, &tape, (0, 0, 3), (0x0000, 0x0000, 0x33, 14));
    Ok(())
}
