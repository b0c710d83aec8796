// What a description says, with the bytes of its sources as they stand.
ghost use Rattle.std.specs.Prelude.{◌≡◌, ◌≤◌, IfOk, length, map, option_map};
ghost use Rattle.toml.specs.View.{table_view};
ghost use Rattle.text_lines.specs.ReadErrors.{SaysSeen};
ghost use Rattle.cartridge.specs.Filling.{plan_without_images, plan_of as plan_told, source_at, HasRoomFor};
ghost use Rattle.cartridge.specs.Filling.{filled_plan, power_of, IsWholePlan};
ghost use Rattle.cartridge.specs.Filled.{IsFilled};
ghost use Rattle.cartridge.specs.Carts.{cart_of, IsCart};
ghost use Rattle.cartridge.specs.Plans.{seen_cart, seen_chip, seen_source, str_seen};

use super::chip_table::ChipPlan;
use super::description::{Described, read_description};
use super::finish::{Unfilled, finished_specs};
use super::refusal::CartAnswer;
use super::rom_source::{ChipSource, SourceRom, unfilled_rom};
use cart_data::{Cart, Split};
use chip_face::{ChipList, ChipSpec, MOST_CHIPS, Powers};
use f8_asm::{Image, Room};
use std::alloc::{AllocError, Global};
use std::marker::Model;
use toml::Table;

/// What a description says: the registers that the checker tracks, the chips in its order, and how each is powered on. The bytes of a chip
/// that has a source are FF until the image of its source is put there. Contracts see what the description says, with these bytes.
#[derive(Drop)]
pub struct Plan {
    split: Split,
    specs: Vec<ChipSpec>,
    sources: Vec<Option<SourceRom>>,
    powers: Powers,
}

impl Model for Plan {
    ghost use Rattle.std.specs.Prelude.{◌≡◌, length};
    ghost use Rattle.cartridge.specs.Filling.{Planned, IsWholePlan};
    ghost use Rattle.cartridge.specs.Plans.{seen_plan};

    ghost Value = { Planned };

    ghost view = { λ p. seen_plan p.split p.specs.items p.sources.items p.powers };

    ghost invariant = { λ p. (length p.specs.items ≡ length p.sources.items)
        × IsWholePlan (seen_plan p.split p.specs.items p.sources.items p.powers) };
}

impl Plan {
    /// The source of a chip, where the chip is there and has one.
    fn source_of(&self, chip: u8) -> Option<&ChipSource>
        ensures { option_map (λ s. seen_source s.now) result ≡ source_at self.now chip }
    {
        let rom = self.sources.get(usize::from(chip))?.as_ref()?;
        Some(&rom.source)
    }

    /// The name of the assembly file that a chip's bytes come from. `None` where the chip has none, and where there is no such chip.
    /// Chips are counted from 0, in the order of the description.
    pub fn source(&self, chip: u8) -> Option<&str>
        ensures { option_map str_seen result ≡ option_map (λ s. s.name) (source_at self.now chip) }
    {
        Some(self.source_of(chip)?.name.as_str())
    }

    /// The addresses that the image of a chip's source may have: those of a 3851, or those of the ROM pages of a 3853. `None` where the
    /// chip has no source, and where there is no such chip.
    pub fn room(&self, chip: u8) -> Option<Room>
        ensures { result ≡ option_map (λ s. s.room) (source_at self.now chip) }
    {
        Some(self.source_of(chip)?.room)
    }

    /// Puts the bytes of an image into a chip that has a source. The image lies in the room of the source. Where it has no byte, the byte
    /// that was there before stays. It takes no memory.
    pub fn fill(&mut self, chip: u8, image: &Image)
        requires { HasRoomFor self.old chip image.now.bytes }
        ensures plan { self.new ≡ filled_plan self.old chip image.now.bytes }
        ensures image { IsFilled self.old chip image.now.bytes self.new }
    {
        if let Some(rom) = &mut self.sources[usize::from(chip)] {
            rom.fill(image.bytes());
        }
    }

    /// The cartridge of the plan, which is given up. It takes no memory.
    ///
    /// # Errors
    ///
    /// `Unfilled`: the lowest chip with a source that no image was put into.
    pub fn cart(self) -> Result<Cart, Unfilled>
        ensures value { result ≡ cart_of self }
        ensures whole { IfOk result (λ cart. IsCart cart) }
    {
        let specs = finished_specs(self.specs, self.sources)?;
        Ok(Cart {
            split: self.split,
            chips: ChipList::from_vec(specs),
            powers: self.powers,
        })
    }
}

/// What is said of the power-on of each chip.
fn powers_of(chips: &[ChipPlan]) -> Powers
    requires { length chips.now ≤ MOST_CHIPS }
    ensures { result ≡ map (λ chip. power_of (seen_chip chip)) chips.now }
{
    let mut powers = Powers::new();
    for chip in chips {
        powers.push(chip.power);
    }
    powers
}

/// The plan of what a description says.
fn plan_of(alloc: Global, cart: Described) -> Result<Plan, AllocError>
    requires { IsWholePlan (plan_without_images (seen_cart cart)) }
    ensures { IfOk result (λ plan. plan ≡ plan_without_images (seen_cart cart)) }
{
    let powers = powers_of(cart.chips.as_slice());
    let mut specs = Vec::new(alloc);
    let mut sources = Vec::new(alloc);
    for chip in cart.chips {
        specs.push(chip.spec)?;
        sources.push(unfilled_rom(alloc, chip.source)?)?;
    }
    Ok(Plan {
        split: cart.split,
        specs,
        sources,
        powers,
    })
}

/// The plan of a description, a TOML document of this project's own (docs/FORMATS.md). Its chips can be fitted: there are at most 16, each
/// as a specification has to be, and none blank. It holds all the memory that `fill` and `cart` work in.
///
/// # Errors
///
/// `Fault`: the first fault of the description, by chip, key and cause.
/// `Memory`: memory is missing. It says nothing of the description.
pub fn read_cart(alloc: Global, table: &Table) -> Result<Plan, CartAnswer>
    ensures says { SaysSeen (λ plan. plan) result (plan_told (table_view table.now)) }
    ensures whole { IfOk result (λ plan. IsWholePlan plan) }
{
    let cart = read_description(alloc, table)?;
    match plan_of(alloc, cart) {
        Ok(plan) => Ok(plan),
        Err(_) => Err(CartAnswer::Memory),
    }
}
