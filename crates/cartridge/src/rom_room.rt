// The ROM pages among the pages of a 3853, and the addresses of their bytes.
ghost use Rattle.std.specs.Prelude.{◌≡◌, ◌≤◌, find, length, reverse};
ghost use Rattle.cartridge.specs.Rooms.{room_size as size_told};
ghost use Rattle.cartridge.specs.Pages.{is_rom_page as is_rom_told, rom_size_of, room_between as between};
ghost use Rattle.cartridge.specs.Pages.{rom_span as span_told, rom_room as room_told};

use chip_face::{PAGE_SIZE, Page, PageList, PageSort};
use f8_asm::Room;

/// How many addresses a room has.
pub fn room_size(room: Room) -> usize
    ensures { result ≡ size_told room }
{
    (usize::from(room.last) + 1).saturating_sub(usize::from(room.first))
}

/// The page is one of ROM.
fn is_rom_page(page: Page) -> bool
    ensures { result ≡ is_rom_told page }
{
    page.sort == PageSort::Rom
}

/// How many bytes of ROM the pages have, 256 for each page of ROM.
pub fn rom_size(pages: &PageList) -> usize
    requires { length pages.now ≤ 256 }
    ensures { result ≡ rom_size_of pages.now }
{
    let pages = pages.as_slice();
    PAGE_SIZE * pages.iter().filter(|page| is_rom_page(**page)).count()
}

/// The first page of ROM.
fn first_rom(pages: &[Page]) -> Option<Page>
    ensures { result ≡ find is_rom_told pages.now }
{
    pages.iter().find(|page| is_rom_page(**page)).copied()
}

/// The last page of ROM.
fn last_rom(pages: &[Page]) -> Option<Page>
    ensures { result ≡ find is_rom_told (reverse pages.now) }
{
    pages.iter().rev().find(|page| is_rom_page(**page)).copied()
}

/// The addresses from one page to another.
fn room_between(lowest: Page, highest: Page) -> Room
    ensures { result ≡ between lowest highest }
{
    Room {
        first: 256 * u16::from(lowest.number),
        last: 256 * u16::from(highest.number) + 255,
    }
}

/// The addresses from the lowest page of ROM to the highest one, of pages that ascend.
fn rom_span(pages: &[Page]) -> Option<Room>
    ensures { result ≡ span_told pages.now }
{
    let lowest = first_rom(pages)?;
    let highest = last_rom(pages)?;
    Some(room_between(lowest, highest))
}

/// The addresses of the pages of ROM, where there are any and they have no gap.
pub fn rom_room(pages: &PageList) -> Option<Room>
    requires { length pages.now ≤ 256 }
    ensures { result ≡ room_told pages.now }
{
    let room = rom_span(pages.as_slice())?;
    if room_size(room) == rom_size(pages) {
        Some(room)
    } else {
        None
    }
}
