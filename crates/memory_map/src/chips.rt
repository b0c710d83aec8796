// Questions about the chips of a description.
ghost use Rattle.std.specs.Prelude.{◌≡◌, ◌≤◌, All, IfOk, None, filter_map, length};
ghost use Rattle.std.specs.List.{list_any};
ghost use Rattle.f8_spec.specs.BusArbitration.{seat_of};
ghost use Rattle.chip_face.specs.Fitting.{IsSpec, fitted};
ghost use Rattle.memory_map.specs.MapKinds.{has_kind_and_page, has_kind_and_pages, is_written, told_vector};

use super::pages::chip_page;
use chip_face::{ChipKind, ChipSpec, same_kind};
use std::alloc::{AllocError, Global};

/// A chip is of a kind, and holds the page of a number.
#[tactic(auto, using(crate::proofs::Held::holds_page))]
fn holds(chip: &ChipSpec, kind: ChipKind, number: u8) -> bool
    requires { IsSpec chip.now }
    ensures { result ≡ has_kind_and_page kind number (seat_of (fitted None chip.now)) }
{
    same_kind(kind, chip.kind()) && chip_page(chip, number).is_some()
}

/// A chip is of a kind, and has a page.
fn has_pages(chip: &ChipSpec, kind: ChipKind) -> bool
    ensures { result ≡ has_kind_and_pages kind (seat_of (fitted None chip.now)) }
{
    match (chip, kind) {
        (ChipSpec::Psu { .. }, ChipKind::Psu) => true,
        (ChipSpec::Smi { pages, .. }, ChipKind::Smi) => !pages.as_slice().is_empty(),
        _ => false,
    }
}

/// Some chip of a kind holds the page of a number.
pub fn some_holds(chips: &[ChipSpec], kind: ChipKind, number: u8) -> bool
    requires { All IsSpec chips.now }
    ensures { result
        ≡ list_any (λ chip. has_kind_and_page kind number (seat_of (fitted None chip))) chips.now }
{
    for chip in chips {
        if holds(chip, kind, number) {
            return true;
        }
    }
    false
}

/// Some chip of a kind has a page.
pub fn some_has_pages(chips: &[ChipSpec], kind: ChipKind) -> bool
    ensures { result
        ≡ list_any (λ chip. has_kind_and_pages kind (seat_of (fitted None chip))) chips.now }
{
    chips.iter().any(|chip| has_pages(chip, kind))
}

/// Some chip can interrupt.
pub fn some_wired(chips: &[ChipSpec]) -> bool
    ensures { result ≡ list_any (λ chip. (fitted None chip).wired) chips.now }
{
    chips.iter().any(|chip| chip.is_wired())
}

/// The vector of a chip that can interrupt, where no port writes it.
fn told_vector(chip: &ChipSpec) -> Option<u16>
    ensures { result ≡ told_vector (fitted None chip.now) }
{
    match chip {
        ChipSpec::Psu {
            vector,
            wired: true,
            ..
        }
        | ChipSpec::Pio {
            vector,
            wired: true,
            ..
        } => Some(*vector),
        _ => None,
    }
}

/// Of the chips that can interrupt, the vectors that no port writes, in the order of the chips.
pub fn told_vectors(alloc: Global, chips: &[ChipSpec]) -> Result<Vec<u16>, AllocError>
    ensures each { IfOk result (λ vectors. vectors.items
        ≡ filter_map (λ chip. told_vector (fitted None chip)) chips.now) }
    ensures few { IfOk result (λ vectors. length vectors.items ≤ length chips.now) }
{
    let mut vectors = Vec::new(alloc);
    for chip in chips {
        match told_vector(chip) {
            Some(vector) => vectors.push(vector)?,
            None => {},
        }
    }
    Ok(vectors)
}

/// A chip can interrupt, and its vector is written by ports.
fn is_written(chip: &ChipSpec) -> bool
    ensures { result ≡ is_written (fitted None chip.now) }
{
    match chip {
        ChipSpec::Smi { wired, .. } => *wired,
        ChipSpec::Blank(_) | ChipSpec::Psu { .. } | ChipSpec::Pio { .. } => false,
    }
}

/// Some chip can interrupt whose vector is written by ports.
pub fn some_written(chips: &[ChipSpec]) -> bool
    ensures { result ≡ list_any (λ chip. is_written (fitted None chip)) chips.now }
{
    chips.iter().any(|chip| is_written(chip))
}
