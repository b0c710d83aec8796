// The worked steps, each on a rack made anew.
use super::bus::Way;
use super::cart::{play_all, seat};
use super::walk::walk;
use super::{acknowledgements, carts, free_steps, ports, reads, stores};
use chip_face::Chip;
use chip_fakes::{Listener, Patched};
use data_bus::Rack;
use pio3861::Pio;
use psu3851::Psu;
use smi3853::Smi;
use std::alloc::Global;
use std::process::Abort;
use std::test::Fail;

/// A rack of two 3851s, two 3853s and a 3861, each made anew.
macro_rules! rack_of {
    ($rt:ident, $psu:expr, $smi:expr, $pio:expr) => {{
        let mut rack: Rack = Vec::new($rt.alloc());
        rack.push(Box::new($rt.alloc(), $psu)?)?;
        rack.push(Box::new($rt.alloc(), $psu)?)?;
        rack.push(Box::new($rt.alloc(), $smi)?)?;
        rack.push(Box::new($rt.alloc(), $smi)?)?;
        rack.push(Box::new($rt.alloc(), $pio)?)?;
        rack
    }};
}

/// Every worked step.
fn play_each(rt: &impl Abort, alloc: Global, rack: &mut Rack) -> Result<(), Fail> {
    let texts = [
        reads::CARTS,
        stores::CARTS,
        ports::CARTS,
        acknowledgements::CARTS,
        free_steps::CARTS,
        carts::CARTS,
    ];
    for text in texts {
        play_all(rt, alloc, rack, text)?;
    }
    Ok(())
}

#[test]
fn on_plain_chips(rt: HostRuntime) -> Result<(), Fail> {
    let mut rack = rack_of!(rt, Psu::blank(), Smi::blank(), Pio::blank());
    play_each(&rt, rt.alloc(), &mut rack)
}

// The 3851s have room for one step: a listener acts as the chip in it past its room too.
#[test]
fn on_listeners(rt: HostRuntime) -> Result<(), Fail> {
    let mut rack = rack_of!(
        rt,
        Listener::round_psu(rt.alloc(), 1)?,
        Listener::round_smi(rt.alloc(), 1000)?,
        Listener::round_pio(rt.alloc(), 1000)?
    );
    play_each(&rt, rt.alloc(), &mut rack)
}

#[test]
fn patches_one_byte(rt: HostRuntime) -> Result<(), Fail> {
    let mut rack: Rack = Vec::new(rt.alloc());
    rack.push(Box::new(rt.alloc(), Patched::psu(0x0401, 0x70))?)?;
    rack.push(Box::new(rt.alloc(), Patched::psu(0x0001, 0x70))?)?;
    play_all(&rt, rt.alloc(), &mut rack, carts::PATCHED)
}

/// How many questions were put to the first chip.
fn asked(rack: &Rack) -> u64 {
    match rack.get(0) {
        Some(chip) => chip.asked(),
        None => 0,
    }
}

/// The code of the last test.
const CODE: &str = "rom 0000 2B 2B\n3851 0 0000 0000 04 0000";

// The code lies at 0000, where reset marks the program counter: from then on a fetch by the index asks the one chip, and once.
#[test]
fn asks_once_by_an_index(rt: HostRuntime) -> Result<(), Fail> {
    let mut rack: Rack = Vec::new(rt.alloc());
    rack.push(Box::new(rt.alloc(), Psu::blank())?)?;
    let mut bus = seat(rt.alloc(), &mut rack, Way::ByIndex, CODE)?;
    let begin = "08 00 -> served 00\n00 77 -> served 2B socket 0";
    walk(&rt, rt.alloc(), &mut rack, &mut bus, begin)?;
    let before = asked(&rack);
    let fetch = "00 77 -> served 2B socket 0";
    walk(&rt, rt.alloc(), &mut rack, &mut bus, fetch)?;
    assert!(rt; asked(&rack) == before.saturating_add(1));
    Ok(())
}
