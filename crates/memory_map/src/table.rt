// The map: what each address is to the chips of a description.
ghost use Rattle.console_spec.specs.FreeRuns.{AreBytes};

use super::chips::{some_wired, some_written, told_vectors};
use super::entry::{Entry, all_held, all_held_once, any_shared};
use super::holders::Holder;
use super::kinds::KindPages;
use super::ports::{all_readers, all_takers};
use chip_face::{ChipKind, ChipList, ChipSpec, MOST_CHIPS, PageSort};
use console_spec::Sort;
use f8_spec::Memory;
use std::alloc::{AllocError, Global};
use std::marker::Model;

/// What each address is to the chips of a description, how many of them have each port, and what holds of a kind, of all addresses and of
/// all chips. All is worked out once, so that a question is one look-up. Contracts see the table, which each call reads by a definition
/// of its own, `mapped_sort` and the others, and that it is the map of some chips by `IsMapOf`.
#[derive(Drop)]
pub struct Map {
    pages: [Entry; 256],

    /// The byte that stays at each address, and 255 where none does.
    bytes: Vec<u8>,

    /// How many chips have each port as a data port, and how many have it at all.
    readers: [u8; 256],
    takers: [u8; 256],

    /// What the chips of each kind hold.
    psu: KindPages,
    smi: KindPages,
    pio: KindPages,

    /// Each address has a holder; each has one alone; some address has several; some chip can interrupt.
    held_everywhere: bool,
    covered: bool,
    overlaps: bool,
    wired: bool,

    /// Of the chips that can interrupt, the vectors that no port writes, and whether some has one that ports write.
    vectors: Vec<u16>,
    written: bool,
}

impl Model for Map {
    ghost use Rattle.std.specs.Prelude.{◌≤◌, length};
    ghost use Rattle.chip_face.specs.declared.sizes.TheConstants.{MOST_CHIPS};
    ghost use Rattle.memory_map.specs.MapEntries.{KeepsPages};
    ghost use Rattle.memory_map.specs.MapOf.{MapTable};

    ghost Value = { MapTable };

    ghost view = { λ m. record {
      pages = m.pages;
      bytes = m.bytes.items;
      readers = m.readers;
      takers = m.takers;
      psu = m.psu;
      smi = m.smi;
      pio = m.pio;
      covered = m.covered;
      overlaps = m.overlaps;
      wired = m.wired;
      vectors = m.vectors.items;
      written = m.written;
    } };

    ghost invariant = { λ m.
        KeepsPages m.pages m.bytes.items m.held_everywhere × (length m.vectors.items ≤ MOST_CHIPS) };
}

impl Map {
    ghost use Rattle.std.specs.Prelude.{◌≡◌, ◌≤◌, ◌/◌, ℕ, All, IfOk, length, slice_get};
    ghost use Rattle.chip_face.specs.Fitting.{IsSpec};
    ghost use Rattle.memory_map.specs.MapOf.{IsMapOf, IsWholeMap, entry_at, mapped_sort, mapped_owner, mapped_byte};
    ghost use Rattle.memory_map.specs.MapOf.{mapped_readers, mapped_takers};
    ghost use Rattle.memory_map.specs.MapOf.{kind_pages, mapped_held, mapped_any, mapped_held_everywhere};
    ghost use Rattle.memory_map.specs.MapOf.{mapped_covered, mapped_overlaps, mapped_wired};
    ghost use Rattle.memory_map.specs.MapOf.{mapped_vectors, mapped_written};

    /// The map of some chips, or want of memory. What it tells is copied.
    pub fn of(alloc: Global, chips: &ChipList) -> Result<Map, Memory>
        ensures tells { IfOk result (λ map. IsMapOf map chips.now) }
        ensures whole { IfOk result IsWholeMap }
    {
        match Map::of_slice(alloc, chips.as_slice()) {
            Ok(map) => {
                bytes_law(&map.bytes);
                Ok(map)
            },
            Err(_) => Err(Memory),
        }
    }

    fn of_slice(alloc: Global, chips: &[ChipSpec]) -> Result<Map, AllocError>
        requires few { length chips.now ≤ MOST_CHIPS }
        requires specified { All IsSpec chips.now }
        ensures { IfOk result (λ map. IsMapOf map chips.now) }
    {
        let mut pages = [Entry::Nothing; 256];
        let mut bytes = Vec::with_capacity(alloc, 65_536)?;
        for number in 0..256 {
            let holder = Holder::of(chips, number as u8);
            holder.add_bytes(&mut bytes)?;
            pages[number] = holder.entry();
        }
        let vectors = told_vectors(alloc, chips)?;
        Ok(Map {
            held_everywhere: all_held(&pages),
            covered: all_held_once(&pages),
            overlaps: any_shared(&pages),
            pages,
            bytes,
            readers: all_readers(chips),
            takers: all_takers(chips),
            psu: KindPages::of(chips, ChipKind::Psu),
            smi: KindPages::of(chips, ChipKind::Smi),
            pio: KindPages::of(chips, ChipKind::Pio),
            wired: some_wired(chips),
            vectors,
            written: some_written(chips),
        })
    }

    #[inline]
    fn entry(&self, at: u16) -> Entry
        ensures { result ≡ entry_at self.now at }
    {
        self.pages[usize::from(at / 256)]
    }

    /// What an address is: that of its page where one chip holds it, and else nobody's or several chips'. It is one for a whole page.
    #[tactic(auto, unfolding(crate::specs::MapOf::mapped_sort))]
    #[inline]
    pub fn sort(&self, at: u16) -> Sort
        ensures sort { result ≡ mapped_sort self.now at }
        ensures page { (other : ℕ) → other / 256 ≡ at / 256 → mapped_sort self.now other ≡ result }
    {
        match self.entry(at) {
            Entry::Nothing => Sort::Nothing,
            Entry::Held { sort, .. } => match sort {
                PageSort::Rom => Sort::Rom,
                PageSort::Ram => Sort::Ram,
                PageSort::Void => Sort::Void,
            },
            Entry::Shared => Sort::Shared,
        }
    }

    /// The byte at an address of ROM, and 255 at a void one. `None` where a store can change it, or where not exactly one chip holds it.
    #[tactic(auto, unfolding(crate::specs::MapOf::mapped_byte))]
    #[inline]
    pub fn byte(&self, at: u16) -> Option<u8>
        ensures { result ≡ mapped_byte self.now at }
    {
        match self.entry(at) {
            Entry::Held {
                sort: PageSort::Rom | PageSort::Void,
                ..
            } => Some(self.bytes[usize::from(at)]),
            _ => None,
        }
    }

    /// The place among the chips of the one that holds an address. `None` where not exactly one does.
    #[tactic(auto, unfolding(crate::specs::MapOf::mapped_owner))]
    #[inline]
    pub fn owner(&self, at: u16) -> Option<u8>
        ensures { result ≡ mapped_owner self.now at }
    {
        match self.entry(at) {
            Entry::Held { owner, .. } => Some(owner),
            _ => None,
        }
    }

    /// How many chips have a port as a data port: of the four ports of a 3851 and of a 3861 those are the first two, and a 3853 has none.
    #[tactic(auto, unfolding(crate::specs::MapOf::mapped_readers))]
    #[inline]
    pub fn reads(&self, port: u8) -> u8
        ensures { result ≡ mapped_readers self.now port }
    {
        self.readers[usize::from(port)]
    }

    /// How many chips have a port, whatever it is to them.
    #[tactic(auto, unfolding(crate::specs::MapOf::mapped_takers))]
    #[inline]
    pub fn writes(&self, port: u8) -> u8
        ensures { result ≡ mapped_takers self.now port }
    {
        self.takers[usize::from(port)]
    }

    /// What the chips of a kind hold.
    #[inline]
    fn of_kind(&self, kind: ChipKind) -> &KindPages
        ensures { result.now ≡ kind_pages kind self.now }
    {
        match kind {
            ChipKind::Psu => &self.psu,
            ChipKind::Smi => &self.smi,
            ChipKind::Pio => &self.pio,
        }
    }

    /// Some chip of a kind holds an address.
    #[tactic(auto, unfolding(crate::specs::MapOf::mapped_held))]
    #[inline]
    pub fn held(&self, at: u16, kind: ChipKind) -> bool
        ensures { result ≡ mapped_held self.now at kind }
    {
        self.of_kind(kind).held[usize::from(at / 256)]
    }

    /// Some chip of a kind has a page.
    #[tactic(auto, unfolding(crate::specs::MapOf::mapped_any))]
    #[inline]
    pub fn any(&self, kind: ChipKind) -> bool
        ensures { result ≡ mapped_any self.now kind }
    {
        self.of_kind(kind).any
    }

    /// Each address has one holder or more.
    #[inline]
    pub fn held_everywhere(&self) -> bool
        ensures { result ≡ mapped_held_everywhere self.now }
    {
        self.held_everywhere
    }

    /// Each address has one holder alone.
    #[tactic(auto, unfolding(crate::specs::MapOf::mapped_covered))]
    #[inline]
    pub fn covered(&self) -> bool
        ensures { result ≡ mapped_covered self.now }
    {
        self.covered
    }

    /// Some address has several holders.
    #[tactic(auto, unfolding(crate::specs::MapOf::mapped_overlaps))]
    #[inline]
    pub fn overlaps(&self) -> bool
        ensures { result ≡ mapped_overlaps self.now }
    {
        self.overlaps
    }

    /// Some chip can interrupt.
    #[tactic(auto, unfolding(crate::specs::MapOf::mapped_wired))]
    #[inline]
    pub fn wired(&self) -> bool
        ensures { result ≡ mapped_wired self.now }
    {
        self.wired
    }

    /// The vector of a chip that can interrupt and whose vector no port writes: of all such chips, in their order, the one in a place.
    /// `None` past the last.
    #[tactic(auto, unfolding(crate::specs::MapOf::mapped_vectors))]
    #[inline]
    pub fn vector(&self, place: u8) -> Option<u16>
        ensures vector { result ≡ slice_get (mapped_vectors self.now) place }
        ensures few { length (mapped_vectors self.now) ≤ MOST_CHIPS }
    {
        self.vectors.get(usize::from(place)).copied()
    }

    /// Some chip can interrupt whose vector is written by ports, as a 3853's is.
    #[tactic(auto, unfolding(crate::specs::MapOf::mapped_written))]
    #[inline]
    pub fn wired_smi(&self) -> bool
        ensures { result ≡ mapped_written self.now }
    {
        self.written
    }
}

/// What a slice of `u8` holds are bytes. This call does nothing; its contract is the law.
fn bytes_law(bytes: &[u8])
    ensures { AreBytes bytes.now }
{}
