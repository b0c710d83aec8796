// The pages of a 3853 and the bytes in them.
ghost use Rattle.std.specs.Prelude.{ℕ, ◌≡◌, ◌*◌, ◌/◌, ◌<◌, IfOk, IfSome, length, is_some, slice_index, if◌then◌else◌};
ghost use Rattle.f8_spec.specs.ChipState.{byte_in, bytes_with, filled_bytes, is_ram, is_sort_at, place_of};
ghost use Rattle.chip_face.specs.Fitting.{IsSmiSpec, page_bytes};

use super::fills::{contents, fill_ram, places_of};
use chip_face::{Page, PageSort};
use std::alloc::{AllocError, Global};
use std::marker::Model;

/// The pages of a 3853 and the bytes in them: 256 for each page, in order. Contracts see the two lists.
#[derive(Drop)]
pub struct Space {
    pages: Vec<Page>,
    bytes: Vec<u8>,

    /// The place of each page, by its number.
    places: [Option<u8>; 256],
}

impl Model for Space {
    ghost use Rattle.smi3853.specs.Spaces.{Contents, IsSpace};

    ghost Value = { Contents };

    ghost view = { λ s. record { pages = s.pages.items; bytes = s.bytes.items } };

    ghost invariant = { λ s. IsSpace s.pages.items s.bytes.items s.places };
}

impl Space {
    /// The space of a specification before power-on, or want of memory: all of it is taken here.
    pub fn new(alloc: Global, pages: &[Page], rom: &[u8]) -> Result<Space, AllocError>
        requires { IsSmiSpec pages.now rom.now }
        ensures contents { IfOk result (λ space. space
            ≡ record { pages = pages.now; bytes = page_bytes pages.now rom.now }) }
        ensures size { IfOk result (λ space. length space.bytes ≡ length space.pages * 256) }
        ensures below { IfOk result (λ space. (place : ℕ) → slice_index space.bytes place < 256) }
    {
        let places = places_of(pages);
        let bytes = contents(alloc, pages, rom)?;
        let pages = pages.to_vec(alloc)?;
        Ok(Space {
            pages,
            bytes,
            places,
        })
    }

    /// The place of the page that an address lies in, and `None` where there is none.
    #[inline]
    fn place(&self, at: u16) -> Option<usize>
        ensures place { result ≡ place_of self.now.pages (at / 256) }
        ensures within { IfSome result (λ place. place < length self.now.pages) }
    {
        let place = self.places[usize::from(at / 256)]?;
        Some(usize::from(place))
    }

    /// The address lies in one of the pages.
    #[inline]
    pub fn holds(&self, at: u16) -> bool
        ensures { result ≡ is_some (place_of self.now.pages (at / 256)) }
    {
        self.place(at).is_some()
    }

    /// The byte at an address in one of the pages, and `None` at another.
    #[inline]
    pub fn byte(&self, at: u16) -> Option<u8>
        ensures { result ≡ byte_in self.now.pages self.now.bytes at }
    {
        let place = self.place(at)?;
        Some(self.bytes[place * 256 + usize::from(at % 256)])
    }

    /// The address lies in one of the RAM pages.
    #[inline]
    pub fn has_ram(&self, at: u16) -> bool
        ensures { result ≡ is_sort_at is_ram self.now.pages at }
    {
        match self.place(at) {
            Some(place) => self.pages[place].sort == PageSort::Ram,
            None => false,
        }
    }

    /// Stores a byte in RAM. Where the address is not in a RAM page nothing changes.
    #[inline]
    pub fn store(&mut self, at: u16, byte: u8)
        ensures pages { self.new.pages ≡ self.old.pages }
        ensures bytes { self.new.bytes ≡ (if is_sort_at is_ram self.old.pages at then bytes_with
            self.old.pages self.old.bytes at byte else self.old.bytes) }
    {
        if let Some(place) = self.place(at) {
            if self.pages[place].sort == PageSort::Ram {
                self.bytes[place * 256 + usize::from(at % 256)] = byte;
            }
        }
    }

    /// Sets every byte of the RAM pages.
    pub fn fill_ram(&mut self, fill: u8)
        ensures pages { self.new.pages ≡ self.old.pages }
        ensures bytes { self.new.bytes ≡ filled_bytes fill self.old.pages self.old.bytes }
    {
        fill_ram(self.pages.as_slice(), self.bytes.as_mut_slice(), fill);
    }
}
