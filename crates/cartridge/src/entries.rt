// The lists at the top of a description.
ghost use Rattle.toml.specs.Data.{as_table};
ghost use Rattle.cartridge.specs.Plans.{seen_table};
ghost use Rattle.std.specs.Prelude.{IfOk, map, option_map, ◌≡◌, ◌≤◌, length, []};
ghost use Rattle.toml.specs.View.{view, items_view, table_view};
ghost use Rattle.cartridge.specs.Values.{each, register, registers, split_of as split_listed, split_in as split_told};
ghost use Rattle.cartridge.specs.Values.{usually};
ghost use Rattle.cartridge.specs.declared.keys.Key.TheVariants.{Split as SplitKey};

use super::keys::Key;
use super::refusal::{CartCause, KeyFault};
use super::values::{number_in, value_at};
use abs_domain::MOST_TRACKED;
use cart_data::Split;
use std::alloc::{AllocError, Global};
use toml::{Table, Value};

/// Registers of the scratchpad, no two of them equal.
#[tactic(auto, using(crate::proofs::Registers::registers_none, crate::proofs::Registers::registers_more, crate::proofs::Registers::registers_bad, crate::proofs::Registers::registers_twice, crate::proofs::Registers::registers_all))]
fn registers_of(entries: &[Value]) -> Result<Split, CartCause>
    requires { length entries.now ≤ 8 }
    ensures { result ≡ registers (each register (items_view entries.now)) }
{
    let mut split = Split::new();
    for entry in entries {
        let Ok(register) = number_in(0, 63, entry) else {
            return Err(CartCause::Range);
        };
        let register = register as u8;
        if split.contains(register) {
            return Err(CartCause::Range);
        }
        split.push(register);
    }
    Ok(split)
}

/// At most 8 registers.
#[tactic(auto, using(crate::proofs::ListsRead::count_of_view))]
fn split_of(entries: &[Value]) -> Result<Split, CartCause>
    ensures { result ≡ split_listed (items_view entries.now) }
{
    if entries.len() > MOST_TRACKED {
        return Err(CartCause::TooMany);
    }
    registers_of(entries)
}

/// A list of at most 8 registers.
fn split_in(value: &Value) -> Result<Split, CartCause>
    ensures { result ≡ split_told (view value.now) }
{
    match value.as_array() {
        Some(entries) => split_of(entries.as_slice()),
        None => Err(CartCause::WrongType),
    }
}

/// The registers at their key, and none where it is left out.
pub fn split_at(table: &Table) -> Result<Split, KeyFault>
    ensures { result ≡ usually SplitKey [] split_told (table_view table.now) }
{
    let key = Key::Split;
    let Some(value) = value_at(table, key) else {
        return Ok(Split::new());
    };
    split_in(value).map_err(|cause| KeyFault { key, cause })
}

/// The entries as tables, and `None` where one is something else.
#[tactic(auto, using(crate::proofs::TablesRead::tables_none, crate::proofs::TablesRead::tables_more, crate::proofs::TablesRead::tables_bad, crate::proofs::TablesRead::tables_all))]
pub fn tables_of<'a>(
    alloc: Global,
    entries: &'a [Value],
) -> Result<Option<Vec<&'a Table>>, AllocError>
    ensures { IfOk result (λ tables. option_map (λ ts. map seen_table ts.items) tables
        ≡ each as_table (items_view entries.now)) }
{
    let mut tables = Vec::with_capacity(alloc, entries.len())?;
    for entry in entries {
        let Some(table) = entry.as_table() else {
            return Ok(None);
        };
        tables.push(table)?;
    }
    Ok(Some(tables))
}
