// The chips of a cart, as its lines tell them: the kind of each, its socket, the address in every counter at power-on, and what it is
// fitted with. Their interrupts are wired.
ghost use Rattle.std.specs.Prelude.{IfOk};
ghost use Rattle.chip_face.specs.Fitting.{IsSmiSpec, IsSpec};

use super::words::spelled;
use chip_face::{Bytes, Chip, ChipSpec, MOST_CHIPS, Page, PageList, PageSort};
use data_bus::Rack;
use std::alloc::Global;
use std::test::Fail;

/// What the lines of a cart have told so far.
#[derive(Drop)]
pub(crate) struct Fitting {
    /// The bytes of each 3851, FF where no line tells another.
    rom: [u8; 1024],

    /// The address in every counter of the chip in each socket at power-on.
    pub(crate) starts: [u16; MOST_CHIPS],
}

fn fit(alloc: Global, chip: &mut Box<dyn Chip>, spec: &ChipSpec) -> Result<(), Fail>
    requires { IsSpec spec.now }
{
    chip.fit(alloc, spec)?;
    Ok(())
}

/// A blank chip in every socket.
pub(crate) fn clear(alloc: Global, rack: &mut Rack) -> Result<(), Fail> {
    for chip in rack.iter_mut() {
        let blank = ChipSpec::Blank(chip.kind());
        fit(alloc, chip, &blank)?;
    }
    Ok(())
}

/// A 3851, whose base is on a boundary of 1,024 and whose first port is on one of 4, but not 0.
fn psu(alloc: Global, rom: &[u8; 1024], base: u16, ports: u8, vector: u16) -> Result<ChipSpec, Fail>
    ensures { IfOk result IsSpec }
{
    if base % 1024 != 0 || ports % 4 != 0 || ports < 4 {
        return Err("no 3851 is fitted so".into());
    }
    Ok(ChipSpec::Psu {
        base,
        rom: Bytes::of(alloc, rom)?,
        ports,
        vector,
        wired: true,
    })
}

/// A 3853 with these pages.
fn smi(alloc: Global, pages: &[Page], rom: &[u8]) -> Result<ChipSpec, Fail>
    requires { IsSmiSpec pages.now rom.now }
    ensures { IfOk result IsSpec }
{
    Ok(ChipSpec::Smi {
        pages: PageList::of(alloc, pages)?,
        rom: Bytes::of(alloc, rom)?,
        wired: true,
    })
}

/// A 3853 with one page. If that is ROM, it is 2B throughout.
fn smi_named(alloc: Global, kind: &str, number: u8) -> Result<ChipSpec, Fail>
    ensures { IfOk result IsSpec }
{
    match kind {
        "3853-rom" => {
            let sort = PageSort::Rom;
            smi(alloc, &[Page { number, sort }], &[0x2B; 256])
        }
        "3853-ram" => {
            let sort = PageSort::Ram;
            smi(alloc, &[Page { number, sort }], &[])
        }
        "3853-void" => {
            let sort = PageSort::Void;
            smi(alloc, &[Page { number, sort }], &[])
        }
        _ => Err(kind.into()),
    }
}

fn pio(ports: u8, vector: u16) -> Result<ChipSpec, Fail>
    ensures { IfOk result IsSpec }
{
    if ports % 4 != 0 || ports < 4 {
        return Err("no 3861 is fitted so".into());
    }
    Ok(ChipSpec::Pio {
        ports,
        vector,
        wired: true,
    })
}

impl Fitting {
    pub(crate) fn new() -> Fitting {
        Fitting {
            rom: [0xFF; 1024],
            starts: [0; MOST_CHIPS],
        }
    }

    /// What a chip of a kind is fitted with.
    fn spec_of(&self, alloc: Global, kind: &str, numbers: &[u16]) -> Result<ChipSpec, Fail>
        ensures { IfOk result IsSpec }
    {
        match (kind, numbers) {
            ("3851", [base, ports, vector]) => {
                psu(alloc, &self.rom, *base, u8::try_from(*ports)?, *vector)
            }
            ("3861", [ports, vector]) => pio(u8::try_from(*ports)?, *vector),
            (_, [number]) => smi_named(alloc, kind, u8::try_from(*number)?),
            _ => Err(kind.into()),
        }
    }

    /// Bytes of the 3851s that the lines behind tell, from an address on.
    fn place(&mut self, address: u16, bytes: &[u16]) -> Result<(), Fail> {
        for (offset, byte) in bytes.iter().enumerate() {
            let place = usize::from(address).saturating_add(offset);
            let place = self.rom.get_mut(place).ok_or("bytes behind a 3851")?;
            *place = u8::try_from(*byte)?;
        }
        Ok(())
    }

    /// Reads a line, and fits the chip that it tells.
    pub(crate) fn read(&mut self, alloc: Global, rack: &mut Rack, line: &str) -> Result<(), Fail> {
        let (kind, numbers) = spelled(alloc, line)?;
        match numbers.as_slice() {
            [address, bytes @ ..] if kind == "rom" => self.place(*address, bytes),
            [socket, start, rest @ ..] => {
                let spec = self.spec_of(alloc, kind, rest)?;
                let socket = usize::from(*socket);
                *self.starts.get_mut(socket).ok_or(line)? = *start;
                let chip = rack.get_mut(socket).ok_or(line)?;
                fit(alloc, chip, &spec)
            }
            _ => Err(line.into()),
        }
    }
}
