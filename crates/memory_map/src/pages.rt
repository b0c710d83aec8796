// The pages of a chip.
ghost use Rattle.std.specs.Prelude.{◌≡◌, ◌*◌, ◌%◌, MatchOption, Some, None, length, count_by};
ghost use Rattle.f8_spec.specs.ChipState.{is_rom};
ghost use Rattle.chip_face.specs.Fitting.{IsSpec, psu_pages};
ghost use Rattle.memory_map.specs.ChipPages.{chip_page, page_among};

use chip_face::{ChipSpec, Page, PageSort, rom_size};

/// A page of 256 addresses as a chip holds it: what it is, and its 256 bytes where it is ROM, and none where it isn't.
#[derive(Clone, Copy)]
pub struct HeldPage<'a> {
    pub sort: PageSort,
    pub rom: &'a [u8],
}

/// The pages of a 3851.
fn psu_pages(base: u16) -> [Page; 4]
    requires { base % 1024 ≡ 0 }
    ensures { result ≡ psu_pages base }
{
    let first = (base / 256) as u8;
    let page = |number: u8| Page {
        number,
        sort: PageSort::Rom,
    };
    [
        page(first),
        page(first + 1),
        page(first + 2),
        page(first + 3),
    ]
}

/// The page of a number among some pages, whose ROM bytes lie one page after another.
fn page_among<'a>(number: u8, pages: &[Page], rom: &'a [u8]) -> Option<HeldPage<'a>>
    requires { length rom.now ≡ 256 * count_by (λ p. is_rom p.sort) pages.now }
    ensures { MatchOption result (page_among number pages.now rom.now ≡ None)
        (λ page. page_among number pages.now rom.now
        ≡ Some (record { sort = page.sort; rom = page.rom.now })) }
{
    let mut rest = rom;
    for page in pages {
        let (own, behind) = rest.split_at(rom_size(page.sort));
        if page.number == number {
            return Some(HeldPage {
                sort: page.sort,
                rom: own,
            });
        }
        rest = behind;
    }
    None
}

/// The page of a number in a chip, and `None` where the chip doesn't hold it.
#[tactic(auto, unfolding(crate::specs::ChipPages::chip_page))]
pub fn chip_page(chip: &ChipSpec, number: u8) -> Option<HeldPage<'_>>
    requires { IsSpec chip.now }
    ensures { MatchOption result (chip_page number chip.now ≡ None)
        (λ page. chip_page number chip.now
        ≡ Some (record { sort = page.sort; rom = page.rom.now })) }
{
    match chip {
        ChipSpec::Blank(_) | ChipSpec::Pio { .. } => None,
        ChipSpec::Psu { base, rom, .. } => page_among(number, &psu_pages(*base), rom.as_slice()),
        ChipSpec::Smi { pages, rom, .. } => page_among(number, pages.as_slice(), rom.as_slice()),
    }
}
