// Sizes of racks, pages and ROMs.
ghost use Rattle.std.specs.Prelude.{◌≡◌};
ghost use Rattle.chip_face.specs.Fitting.{rom_size};

use f8_spec::PageSort;

/// The most chips that a rack or a description has (this project's own).
pub const MOST_CHIPS: usize = 16;

/// The bytes of a page (this project's own).
pub const PAGE_SIZE: usize = 256;

/// The bytes of a 3851's ROM (Mostek 3851 data sheet).
pub const PSU_ROM_SIZE: usize = 1024;

/// The first of a 3853's four ports (Mostek 3853 data sheet).
pub const SMI_FIRST_PORT: u8 = 0x0C;

/// How many bytes of a specification's ROM belong to a page of a 3853, by what the page is: 256, or none.
pub fn rom_size(sort: PageSort) -> usize
    ensures { result ≡ rom_size sort }
{
    match sort {
        PageSort::Rom => PAGE_SIZE,
        PageSort::Ram | PageSort::Void => 0,
    }
}
