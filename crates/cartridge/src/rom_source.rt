// Where the bytes of a ROM come from, and the bytes as they stand.
ghost use Rattle.std.specs.Prelude.{◌≡◌, ◌+◌, ◌≤◌, ◌<◌, All, IfOk, length, option_map};
ghost use Rattle.cartridge.specs.Filling.{without_image, filled_source, rom_with};
ghost use Rattle.cartridge.specs.Rooms.{LiesIn};
ghost use Rattle.cartridge.specs.Plans.{seen_source, seen_rom};

use f8_asm::Room;
use std::alloc::{AllocError, Global};

/// The name of an assembly file, and the addresses that its image may have.
#[derive(Debug, Drop)]
pub struct ChipSource {
    pub name: String,
    pub room: Room,
}

/// The bytes of a ROM that come from a source, as they stand, one for each address of its room. They are FF until an image is put there.
#[derive(Debug, Drop)]
pub struct SourceRom {
    pub source: ChipSource,
    pub bytes: Vec<u8>,
    pub filled: bool,
}

/// Puts bytes at their addresses, one after another, into a ROM that has this first address.
fn put(rom: &mut [u8], first: u16, bytes: &[(u16, u8)])
    requires { All (λ b. (first ≤ b.0) × (b.0 < first + length rom.old)) bytes.now }
    ensures { rom.new ≡ rom_with first bytes.now rom.old }
{
    for (address, byte) in bytes {
        rom[usize::from(*address - first)] = *byte;
    }
}

impl SourceRom {
    /// Bytes that are all FF.
    pub fn new(alloc: Global, source: ChipSource) -> Result<SourceRom, AllocError>
        ensures { IfOk result (λ rom. seen_rom rom ≡ without_image (seen_source source)) }
    {
        let Room { first, last } = source.room;
        let size = (usize::from(last) + 1).saturating_sub(usize::from(first));
        Ok(SourceRom {
            source,
            bytes: vec![in alloc; 0xFF; size]?,
            filled: false,
        })
    }

    /// Puts the bytes of an image there.
    pub fn fill(&mut self, bytes: &[(u16, u8)])
        requires inside { LiesIn self.old.source.room bytes.now }
        requires whole { self.old.source.room.first + length self.old.bytes.items
            ≡ self.old.source.room.last + 1 }
        ensures { seen_rom self.new ≡ filled_source bytes.now (seen_rom self.old) }
    {
        put(self.bytes.as_mut_slice(), self.source.room.first, bytes);
        self.filled = true;
    }
}

/// The bytes of a ROM whose source has no image yet, where there is a source.
pub fn unfilled_rom(
    alloc: Global,
    source: Option<ChipSource>,
) -> Result<Option<SourceRom>, AllocError>
    ensures { IfOk result (λ rom. option_map seen_rom rom
        ≡ option_map without_image (option_map seen_source source)) }
{
    match source {
        Some(source) => Ok(Some(SourceRom::new(alloc, source)?)),
        None => Ok(None),
    }
}
