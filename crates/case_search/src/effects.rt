// What an instruction reads and writes, by the parts of entries.
use super::place::Place;
use case_step::{
    Entry, Part, Reads, parts_read, registers_written, writes_accumulator, writes_data,
    writes_flags, writes_isar,
};
use f8_ops::{Op, row_of};
use std::alloc::AllocError;
use value_sets::is_among;

/// What an instruction writes, found once for all cases of an entry.
#[derive(Clone, Copy)]
pub struct Writes {
    pub accumulator: bool,
    pub isar: bool,
    pub flags: bool,

    /// D0, and the DC0 of every 3851.
    pub data: bool,

    /// D0 and D1 change places.
    pub exchanges: bool,

    /// Up to two registers.
    pub registers: [Option<Part>; 2],
}

impl Writes {
    /// What an instruction writes.
    pub fn of(op: Op) -> Writes {
        let registers = registers_written(op);
        Writes {
            accumulator: writes_accumulator(op),
            isar: writes_isar(op),
            flags: writes_flags(op),
            data: writes_data(row_of(op)),
            exchanges: op == Op::Xdc,
            registers: [registers.get(0).copied(), registers.get(1).copied()],
        }
    }
}

/// A part is among those that are read.
pub fn is_read(reads: &Reads, part: Part) -> bool {
    reads.iter().any(|read| *read == part)
}

/// An instruction writes a part, of registers those that it names.
fn is_written(op: Op, place: Place) -> bool {
    match place {
        Place::Accumulator => writes_accumulator(op),
        Place::Isar => writes_isar(op),
        Place::Status(4) => op == Op::LrWJ,
        Place::Status(_) => writes_flags(op),
        Place::D0 | Place::C => writes_data(row_of(op)),
        Place::Register(number) => registers_written(op)
            .iter()
            .any(|part| *part == Part::Register(number)),
        Place::D1 | Place::S0 | Place::S1 | Place::P0 | Place::P1 => false,
    }
}

/// An instruction may write a register to which ISAR points.
fn may_be_pointed(op: Op, place: Place, numbers: &[u8]) -> bool {
    let Place::Register(number) = place else {
        return false;
    };
    let is_pointed = registers_written(op)
        .iter()
        .any(|part| *part == Part::Pointed);
    is_pointed && is_among(numbers, number)
}

/// Adds the parts of an entry that a part which is read stands for.
fn add_read(out: &mut Vec<Place>, part: Part, numbers: &[u8]) -> Result<(), AllocError> {
    match part {
        Part::Accumulator => out.push(Place::Accumulator)?,
        Part::Isar => out.push(Place::Isar)?,
        Part::Sign => out.push(Place::Status(0))?,
        Part::Carry => out.push(Place::Status(1))?,
        Part::Zero => out.push(Place::Status(2))?,
        Part::Overflow => out.push(Place::Status(3))?,
        Part::Icb => out.push(Place::Status(4))?,
        Part::Register(number) => out.push(Place::Register(number))?,
        Part::Pointed => {
            for number in numbers {
                out.push(Place::Register(*number))?;
            }
        },
        Part::DataCounter => out.push(Place::D0)?,
    }
    Ok(())
}

/// The part that an exchange of the data counters puts in a part's place.
fn exchanged(place: Place) -> Place {
    match place {
        Place::D0 => Place::D1,
        Place::D1 => Place::D0,
        Place::S0 => Place::S1,
        Place::S1 => Place::S0,
        Place::P0 => Place::P1,
        Place::P1 => Place::P0,
        place => place,
    }
}

/// Adds the parts of an entry of which its instruction makes a part.
pub fn add_sources(
    out: &mut Vec<Place>,
    op: Op,
    entry: &Entry,
    place: Place,
) -> Result<(), AllocError> {
    if op == Op::Xdc {
        return Ok(out.push(exchanged(place))?);
    }
    if place == Place::P1 && writes_data(row_of(op)) {
        out.push(Place::C)?;
        return Ok(out.push(Place::D1)?);
    }
    let numbers = entry.isar.as_slice();
    let is_named = is_written(op, place);
    let is_pointed = may_be_pointed(op, place, numbers);
    if is_named || is_pointed {
        for part in &parts_read(op) {
            add_read(out, *part, numbers)?;
        }
    }
    if !is_named && (!is_pointed || numbers.len() > 1) {
        out.push(place)?;
    }
    Ok(())
}
