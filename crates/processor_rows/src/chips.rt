// The chips of a worked program and of a worked map.
ghost use Rattle.std.specs.Prelude.{◌≡◌, ◌≤◌, IfOk, false, length};
ghost use Rattle.chip_face.specs.Fitting.{IsSpec, is_blank};

use chip_face::{Bytes, ChipList, ChipSpec, Page, PageList, PageSort};
use std::alloc::Global;
use std::test::Fail;

/// A 3851 at 0000 with these bytes, and FF in the rest of its ROM, whose interrupts lead to 0180 if it can interrupt.
fn psu(alloc: Global, code: &[u8], wired: bool) -> Result<ChipSpec, Fail>
    requires { length code.now ≤ 1024 }
    ensures spec { IfOk result IsSpec }
    ensures kept { IfOk result (λ chip. is_blank chip ≡ false) }
{
    let mut rom = [0xFF; 1024];
    rom[..code.len()].copy_from_slice(code);
    Ok(ChipSpec::Psu {
        base: 0x0000,
        rom: Bytes::of(alloc, &rom)?,
        ports: 0x04,
        vector: 0x0180,
        wired,
    })
}

/// The pages of the 3853.
const PAGES: [Page; 3] = [
    Page {
        number: 0x03,
        sort: PageSort::Rom,
    },
    Page {
        number: 0x28,
        sort: PageSort::Ram,
    },
    Page {
        number: 0x80,
        sort: PageSort::Void,
    },
];

/// A 3853 with a ROM page at 03, a RAM page at 28 and a void page at 80, whose ROM bytes are 1C.
fn smi(alloc: Global) -> Result<ChipSpec, Fail>
    ensures spec { IfOk result IsSpec }
    ensures kept { IfOk result (λ chip. is_blank chip ≡ false) }
{
    Ok(ChipSpec::Smi {
        pages: PageList::of(alloc, &PAGES)?,
        rom: Bytes::of(alloc, &[0x1C; 256])?,
        wired: false,
    })
}

/// Both: they hold page 03 together.
pub(crate) fn two_chips(alloc: Global, code: &[u8], wired: bool) -> Result<ChipList, Fail>
    requires { length code.now ≤ 1024 }
{
    let mut chips = Vec::with_capacity(alloc, 2)?;
    chips.push(psu(alloc, code, wired)?)?;
    chips.push(smi(alloc)?)?;
    Ok(ChipList::from_vec(chips))
}
