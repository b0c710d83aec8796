// How a 3853's pages are filled.
ghost use Rattle.std.specs.Prelude.{◌≡◌, ◌≤◌, ◌*◌, ◌++◌, IfOk, OnOk, length, map, count_by, replicate, if◌then◌else◌};
ghost use Rattle.std.specs.List.Sorted.{IsStrictlyIncreasing};
ghost use Rattle.f8_spec.specs.ChipState.{filled_bytes, is_ram, is_rom};
ghost use Rattle.chip_face.specs.Fitting.{page_bytes, page_content, rom_size};
ghost use Rattle.smi3853.specs.Spaces.{IsPlaces};

use chip_face::{PAGE_SIZE, Page, PageSort, rom_size};
use std::alloc::{AllocError, Global};

/// The place of each page, by its number. Since the pages ascend, there are 256 at most.
pub fn places_of(pages: &[Page]) -> [Option<u8>; 256]
    requires { IsStrictlyIncreasing (map (λ p. p.number) pages.now) }
    ensures table { IsPlaces result pages.now }
    ensures few { length pages.now ≤ 256 }
{
    let mut places = [None; 256];
    for (place, page) in pages.iter().enumerate() {
        let number = usize::from(page.number);
        places[number] = Some(place as u8);
    }
    places
}

/// Adds the bytes of a page before power-on: those of the ROM where it is a ROM page, and else 0 in RAM and 255 where there is nothing.
#[tactic(auto, using(crate::proofs::Filling::whole_page))]
fn add_page(bytes: &mut Vec<u8>, sort: PageSort, rom: &[u8]) -> Result<(), AllocError>
    requires { length rom.now ≡ rom_size sort }
    ensures { OnOk result (bytes.new.items ≡ bytes.old.items ++ page_content sort rom.now) }
{
    let end = bytes.len() + PAGE_SIZE;
    match sort {
        PageSort::Rom => bytes.extend_from_slice(rom),
        PageSort::Ram => bytes.resize(end, 0),
        PageSort::Void => bytes.resize(end, 255),
    }
}

/// The bytes of all pages before power-on, or want of memory. It is taken at once.
pub fn contents(alloc: Global, pages: &[Page], rom: &[u8]) -> Result<Vec<u8>, AllocError>
    requires few { length pages.now ≤ 256 }
    requires rom { length rom.now ≡ 256 * count_by (λ p. is_rom p.sort) pages.now }
    ensures bytes { IfOk result (λ bytes. bytes.items ≡ page_bytes pages.now rom.now) }
    ensures size { IfOk result (λ bytes. length bytes.items ≡ length pages.now * 256) }
{
    let mut bytes = Vec::with_capacity(alloc, pages.len() * PAGE_SIZE)?;
    let mut rest = rom;
    for page in pages {
        let (own, behind) = rest.split_at(rom_size(page.sort));
        add_page(&mut bytes, page.sort, own)?;
        rest = behind;
    }
    Ok(bytes)
}

/// Sets every byte of a RAM page, and leaves another.
fn fill_page(bytes: &mut [u8], sort: PageSort, fill: u8)
    requires { length bytes.old ≡ 256 }
    ensures { bytes.new ≡ (if is_ram sort then replicate 256 fill else bytes.old) }
{
    if sort == PageSort::Ram {
        bytes.fill(fill);
    }
}

/// Sets every byte of the RAM pages.
pub fn fill_ram(pages: &[Page], bytes: &mut [u8], fill: u8)
    requires { length bytes.old ≡ length pages.now * 256 }
    ensures { bytes.new ≡ filled_bytes fill pages.now bytes.old }
{
    for (place, page) in pages.iter().enumerate() {
        let start = place * PAGE_SIZE;
        fill_page(&mut bytes[start..start + PAGE_SIZE], page.sort, fill);
    }
}
