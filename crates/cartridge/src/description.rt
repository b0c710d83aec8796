// A whole description: the keys at its top, and then its chips in order.
ghost use Rattle.std.specs.Prelude.{◌≡◌, ◌≤◌, IfOk, [], map, length, vec_len, Some, None, Err};
ghost use Rattle.toml.specs.View.{table_view};
ghost use Rattle.cartridge.specs.declared.keys.Key.TheVariants.{Chip as ChipKey};
ghost use Rattle.cartridge.specs.declared.refusal.CartCause.TheVariants.{TooMany, WrongType};
ghost use Rattle.cartridge.specs.Faults.{answer_at};
ghost use Rattle.text_lines.specs.ReadErrors.{SaysSeen};
ghost use Rattle.cartridge.specs.Values.{usually, tables_in as tables_told};
ghost use Rattle.cartridge.specs.Description.{top_of as top_told, chips_from, description_in};
ghost use Rattle.cartridge.specs.Plans.{seen_chip, seen_table, seen_top, seen_cart};

use super::chip_table::{ChipPlan, chip_of};
use super::entries::{split_at, tables_of};
use super::format::{CartFormat, format_at};
use super::keys::Key;
use super::known::known;
use super::refusal::{CartAnswer, CartCause, CartFault, KeyFault, TableStop, fault_at};
use super::values::value_at;
use cart_data::Split;
use chip_face::MOST_CHIPS;
use std::alloc::Global;
use toml::Table;

/// The keys at the top.
const TOP_KEYS: [Key; 3] = [Key::Format, Key::Split, Key::Chip];

/// The top of a description: its format, the tracked registers, and the tables of the chips.
#[derive(Drop)]
pub struct Top<'a> {
    pub format: CartFormat,
    pub split: Split,
    pub tables: Vec<&'a Table>,
}

/// What a description says.
#[derive(Drop)]
pub struct Described {
    pub split: Split,
    pub chips: Vec<ChipPlan>,
}

/// The tables of the chips at their key, and none where it is left out.
fn tables_at<'a>(alloc: Global, table: &'a Table) -> Result<Vec<&'a Table>, TableStop>
    ensures says { SaysSeen (λ ts. map seen_table ts.items) result
        (usually ChipKey [] tables_told (table_view table.now)) }
    ensures few { IfOk result (λ ts. vec_len ts ≤ MOST_CHIPS) }
{
    let key = Key::Chip;
    let Some(value) = value_at(table, key) else {
        return Ok(Vec::new(alloc));
    };
    let Some(entries) = value.as_array() else {
        return Err(fault_at(key, CartCause::WrongType));
    };
    let Some(tables) = tables_of(alloc, entries.as_slice())? else {
        return Err(fault_at(key, CartCause::WrongType));
    };
    if tables.len() > MOST_CHIPS {
        return Err(fault_at(key, CartCause::TooMany));
    }
    Ok(tables)
}

/// The top of a description.
#[tactic(auto, unfolding(crate::specs::Description::top_of))]
fn top_of<'a>(alloc: Global, table: &'a Table) -> Result<Top<'a>, TableStop>
    ensures says { SaysSeen seen_top result (top_told (table_view table.now)) }
    ensures few { IfOk result (λ top. vec_len top.tables ≤ MOST_CHIPS) }
{
    known(&TOP_KEYS, table)?;
    let format = format_at(table)?;
    let split = split_at(table)?;
    let tables = tables_at(alloc, table)?;
    Ok(Top {
        format,
        split,
        tables,
    })
}

/// The fault of a chip's table, or of the table at the top, in a description.
fn answer_at(chip: Option<u8>, stop: TableStop) -> CartAnswer
    ensures { result ≡ answer_at chip stop }
{
    match stop {
        TableStop::Fault(KeyFault { key, cause }) => CartAnswer::Fault(CartFault {
            chip,
            key,
            cause,
        }),
        TableStop::Memory => CartAnswer::Memory,
    }
}

/// The chips of some tables.
#[tactic(auto, using(crate::proofs::ChipsRead::chips_none, crate::proofs::ChipsRead::chips_more, crate::proofs::ChipsRead::chips_bad, crate::proofs::ChipsRead::chips_all))]
fn chips_of(
    alloc: Global,
    format: CartFormat,
    tables: &[&Table],
) -> Result<Vec<ChipPlan>, CartAnswer>
    requires { length tables.now ≤ MOST_CHIPS }
    ensures { SaysSeen (λ chips. map seen_chip chips.items) result
        (chips_from format 0 (map seen_table tables.now)) }
{
    let mut chips = Vec::new(alloc);
    for index in 0..tables.len() {
        match chip_of(alloc, format, tables[index]) {
            Ok(chip) => match chips.push(chip) {
                Ok(()) => {}
                Err(_) => return Err(CartAnswer::Memory),
            },
            Err(stop) => return Err(answer_at(Some(index as u8), stop)),
        }
    }
    Ok(chips)
}

/// What a description says, or its first fault. `Memory` says nothing of it.
#[tactic(auto, unfolding(crate::specs::Description::description_in))]
pub fn read_description(alloc: Global, table: &Table) -> Result<Described, CartAnswer>
    ensures { SaysSeen seen_cart result (description_in (table_view table.now)) }
{
    let top = match top_of(alloc, table) {
        Ok(top) => top,
        Err(stop) => return Err(answer_at(None, stop)),
    };
    let chips = chips_of(alloc, top.format, top.tables.as_slice())?;
    Ok(Described {
        split: top.split,
        chips,
    })
}
