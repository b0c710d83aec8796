// The flat memory of a description's chips.
ghost use Rattle.std.specs.Prelude.{◌≡◌, ℕ, ◌/◌, IfOk};
ghost use Rattle.console_spec.specs.FlatMemory.{fill_of_owner, is_ram_sort};
ghost use Rattle.memory_map.specs.MapOf.{mapped_sort};
ghost use Rattle.f8_isa.specs.KeptMemory.{AreFirstBytes, AreRamPages, IsFirstMemory, mapped_first, placed_fill};

use chip_face::{Powers, USUAL_POWER};
use f8_spec::Memory;
use memory_map::{Map, Sort};
use std::alloc::{AllocError, Global};
use std::marker::Model;

/// What is read where no chip, or not just one, holds an address, or has a port as a data port.
pub const NO_BYTE: u8 = 0xFF;

/// The byte that is read at each of the 65,536 addresses, and which of the 256 pages of addresses stores change. Contracts see the two
/// lists.
#[derive(Drop)]
pub struct FlatMemory {
    bytes: Vec<u8>,
    ram_pages: [bool; 256],
}

impl Model for FlatMemory {
    ghost use Rattle.std.specs.Prelude.{◌≡◌, length};
    ghost use Rattle.f8_isa.specs.KeptMemory.{KeptMemory};

    ghost Value = { KeptMemory };

    ghost view = { λ m. record { bytes = m.bytes.items; ram_pages = m.ram_pages } };

    ghost invariant = { λ m. length m.bytes.items ≡ 65536 };
}

impl FlatMemory {
    ghost use Rattle.console_spec.specs.AddressSpace.{byte_at};
    ghost use Rattle.f8_isa.specs.IsaState.{stored_in};

    /// The memory at power-on, or want of memory: in the RAM of each chip `fill`, where nothing else is said of it.
    pub fn new(alloc: Global, map: &Map, powers: &Powers, fill: u8) -> Result<FlatMemory, Memory>
        ensures { IfOk result (IsFirstMemory map.now (placed_fill fill powers.now)) }
    {
        let ram_pages = ram_pages(map);
        match first_bytes(alloc, map, powers, fill) {
            Ok(bytes) => Ok(FlatMemory { bytes, ram_pages }),
            Err(_) => Err(Memory),
        }
    }

    /// The byte that is read at an address.
    #[inline]
    pub fn byte(&self, at: u16) -> u8
        ensures { result ≡ byte_at self.now.bytes at }
    {
        self.bytes[usize::from(at)]
    }

    /// A byte stored at an address, which is lost where it is no RAM.
    #[inline]
    pub fn store(&mut self, at: u16, byte: u8)
        ensures { self.new ≡ record self.old {
          bytes = stored_in self.old.ram_pages at byte
              self.old.bytes;
        } }
    {
        if self.ram_pages[usize::from(at / 256)] {
            self.bytes[usize::from(at)] = byte;
        }
    }
}

/// The byte in all RAM of the chip in a place of the description.
fn placed_fill(powers: &Powers, fill: u8, place: u8) -> u8
    ensures { result ≡ placed_fill fill powers.now place }
{
    let power = powers.get(usize::from(place)).unwrap_or(USUAL_POWER);
    power.fill.unwrap_or(fill)
}

/// The byte in all RAM of the one chip that holds an address, and 0 where there is none.
fn owned_fill(powers: &Powers, fill: u8, owner: Option<u8>) -> u8
    ensures { result ≡ fill_of_owner (placed_fill fill powers.now) owner }
{
    match owner {
        Some(place) => placed_fill(powers, fill, place),
        None => 0,
    }
}

/// The byte that is read at an address at power-on.
fn first_byte(map: &Map, powers: &Powers, fill: u8, at: u16) -> u8
    ensures { result ≡ mapped_first map.now (placed_fill fill powers.now) at }
{
    match map.sort(at) {
        Sort::Ram => owned_fill(powers, fill, map.owner(at)),
        Sort::Rom | Sort::Void | Sort::Nothing | Sort::Shared => map.byte(at).unwrap_or(NO_BYTE),
    }
}

/// The byte that is read at each address at power-on, or want of memory.
fn first_bytes(alloc: Global, map: &Map, powers: &Powers, fill: u8) -> Result<Vec<u8>, AllocError>
    ensures { IfOk result (λ bytes.
        AreFirstBytes map.now (placed_fill fill powers.now) bytes.items 65536) }
{
    let mut bytes = Vec::with_capacity(alloc, 65_536)?;
    for at in 0..65_536_u32 {
        bytes.push(first_byte(map, powers, fill, at as u16))?;
    }
    Ok(bytes)
}

/// The first address of a page is RAM, and so is the whole page.
fn is_ram_page(map: &Map, page: u8) -> bool
    ensures { (at : ℕ) → at / 256 ≡ page → result ≡ is_ram_sort (mapped_sort map.now at) }
{
    map.sort(u16::from(page) * 256) == Sort::Ram
}

/// Which pages are RAM.
fn ram_pages(map: &Map) -> [bool; 256]
    ensures { AreRamPages map.now result }
{
    let mut ram_pages = [false; 256];
    for page in 0..256 {
        ram_pages[page] = is_ram_page(map, page as u8);
    }
    ram_pages
}
