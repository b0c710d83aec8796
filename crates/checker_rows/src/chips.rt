// Chips of small cartridges.
ghost use Rattle.std.specs.Prelude.{◌≡◌, ◌≤◌, IfOk, false, length};
ghost use Rattle.chip_face.specs.Fitting.{IsSpec, is_blank};

use cart_data::{Cart, Split};
use chip_face::{Bytes, ChipList, ChipSpec, Page, PageList, PageSort, Powers};
use std::alloc::Global;
use std::test::Fail;

/// A 3851 at address 0 with some bytes, and FF behind them.
pub(crate) fn psu(alloc: Global, code: &[u8]) -> Result<ChipSpec, Fail>
    requires { length code.now ≤ 1024 }
    ensures spec { IfOk result IsSpec }
    ensures kept { IfOk result (λ chip. is_blank chip ≡ false) }
{
    let mut rom = [0xFF; 1024];
    rom[..code.len()].copy_from_slice(code);
    Ok(ChipSpec::Psu {
        base: 0x0000,
        rom: Bytes::of(alloc, &rom)?,
        ports: 0x04,
        vector: 0x0000,
        wired: false,
    })
}

/// A 3853 with a RAM page at 28.
pub(crate) fn smi(alloc: Global) -> Result<ChipSpec, Fail>
    ensures spec { IfOk result IsSpec }
    ensures kept { IfOk result (λ chip. is_blank chip ≡ false) }
{
    let pages = [Page {
        number: 0x28,
        sort: PageSort::Ram,
    }];
    Ok(ChipSpec::Smi {
        pages: PageList::of(alloc, &pages)?,
        rom: Bytes::of(alloc, &[])?,
        wired: false,
    })
}

/// A cartridge of such a 3851 alone, with no register tracked, of whose power-on nothing is said.
pub(crate) fn lone_cart(alloc: Global, code: &[u8]) -> Result<Cart, Fail>
    requires { length code.now ≤ 1024 }
{
    let mut chips = Vec::with_capacity(alloc, 1)?;
    chips.push(psu(alloc, code)?)?;
    let chips = ChipList::from_vec(chips);
    let powers = Powers::usual(chips.as_slice().len());
    Ok(Cart {
        split: Split::new(),
        chips,
        powers,
    })
}
