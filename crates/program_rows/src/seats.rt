// Rows on racks: a rack is named by its chips, in their order.
use super::calls::{File, Row, check_row};
use chip_face::{ChipKind, Memory};
use chip_fakes::{Listener, Patched};
use f8_machine::Rack;
use pio3861::Pio;
use psu3851::Psu;
use smi3853::Smi;
use std::alloc::Global;
use std::process::Abort;
use std::test::Fail;

/// A chip of a rack, which holds nothing yet.
#[derive(Clone, Copy)]
pub(crate) enum Seat {
    /// One as the program's own rack has it.
    Plain(ChipKind),

    /// One that hears each of the steps.
    Hearing(ChipKind),

    /// A 3851 with this byte at this address, whatever the description has there.
    Patched(u16, u8),
}

pub(crate) const P: Seat = Seat::Plain(ChipKind::Psu);

pub(crate) const S: Seat = Seat::Plain(ChipKind::Smi);

pub(crate) const I: Seat = Seat::Plain(ChipKind::Pio);

pub(crate) const HP: Seat = Seat::Hearing(ChipKind::Psu);

pub(crate) const HS: Seat = Seat::Hearing(ChipKind::Smi);

pub(crate) const HI: Seat = Seat::Hearing(ChipKind::Pio);

/// One plain 3851.
pub(crate) static LONE: [Seat; 1] = [P];

/// The most steps that a chip tells.
const HEARD: u32 = 20_000;

fn listener(alloc: Global, kind: ChipKind) -> Result<Listener, Memory> {
    match kind {
        ChipKind::Psu => Listener::round_psu(alloc, HEARD),
        ChipKind::Smi => Listener::round_smi(alloc, HEARD),
        ChipKind::Pio => Listener::round_pio(alloc, HEARD),
    }
}

/// Makes the calls of these rows one after another, on one rack of these chips.
pub(crate) fn check_rows(
    rt: &impl Abort,
    alloc: Global,
    seats: &[Seat],
    rows: &[Row],
) -> Result<(), Fail> {
    check_rows_over(rt, alloc, seats, &[], rows)
}

/// The same where the rows have files in common, beside their own.
pub(crate) fn check_rows_over(
    rt: &impl Abort,
    alloc: Global,
    seats: &[Seat],
    common: &[File],
    rows: &[Row],
) -> Result<(), Fail> {
    let mut rack: Rack = Vec::new(alloc);
    for seat in seats {
        match *seat {
            Seat::Plain(ChipKind::Psu) => rack.push(Box::new(alloc, Psu::blank())?)?,
            Seat::Plain(ChipKind::Smi) => rack.push(Box::new(alloc, Smi::blank())?)?,
            Seat::Plain(ChipKind::Pio) => rack.push(Box::new(alloc, Pio::blank())?)?,
            Seat::Hearing(kind) => rack.push(Box::new(alloc, listener(alloc, kind)?)?)?,
            Seat::Patched(at, byte) => rack.push(Box::new(alloc, Patched::psu(at, byte))?)?,
        }
    }
    for row in rows {
        check_row(rt, alloc, row, common, &mut rack)?;
    }
    Ok(())
}
