// The chips of a plan with the bytes of their sources.
ghost use Rattle.std.specs.Prelude.{◌≡◌, ◌≤◌, length, map, position, MatchResult, Some, None};
ghost use Rattle.cartridge.specs.Carts.{with_rom, specification_of, wants_image};
ghost use Rattle.cartridge.specs.Plans.{seen_chips};

use super::rom_source::SourceRom;
use chip_face::{Bytes, ChipSpec, MOST_CHIPS};
use thiserror::Error;

/// The lowest chip with a source that no image was put into. Chips are counted from 0, in the order of the description.
#[derive(Clone, Copy, Debug, PartialEq, Eq, Error)]
#[error("the source of chip {chip} isn't filled")]
pub struct Unfilled {
    pub chip: u8,
}

/// Puts other bytes in the ROM of a specification.
fn set_rom(spec: &mut ChipSpec, bytes: Vec<u8>)
    ensures { spec.new ≡ with_rom bytes.items spec.old }
{
    match spec {
        ChipSpec::Blank(_) | ChipSpec::Pio { .. } => {}
        ChipSpec::Psu { rom, .. } => *rom = Bytes::from_vec(bytes),
        ChipSpec::Smi { rom, .. } => *rom = Bytes::from_vec(bytes),
    }
}

/// The chips with the bytes of their sources, or the lowest one that wants an image.
pub fn finished_specs(
    mut specs: Vec<ChipSpec>,
    mut sources: Vec<Option<SourceRom>>,
) -> Result<Vec<ChipSpec>, Unfilled>
    requires paired { length specs.items ≡ length sources.items }
    requires few { length specs.items ≤ MOST_CHIPS }
    ensures { let chips = seen_chips specs.items sources.items in
        MatchResult result
        (λ specs. (position wants_image chips ≡ None) × (specs.items ≡ map specification_of chips))
        (λ unfilled. position wants_image chips ≡ Some unfilled.chip) }
{
    for index in 0..specs.len() {
        if let Some(rom) = sources[index].take() {
            if !rom.filled {
                return Err(Unfilled { chip: index as u8 });
            }
            set_rom(&mut specs[index], rom.bytes);
        }
    }
    Ok(specs)
}
