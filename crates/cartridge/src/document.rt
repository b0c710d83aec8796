// The document of a described table.
ghost use Rattle.std.specs.Prelude.{◌≡◌, true, Some, IfOk, IsOk, string_bytes};
ghost use Rattle.toml.specs.Parse.{parse_document};
ghost use Rattle.toml.specs.View.{table_view, items_view};
ghost use Rattle.cartridge.specs.declared.keys.Key.TheVariants.{Chip as ChipKey};
ghost use Rattle.cartridge.specs.Keys.{value_at as found_at};
ghost use Rattle.cartridge.specs.Description.{description_in};
ghost use Rattle.cartridge.specs.DistinctKeys.{are_distinct, entries_are_distinct, chips_are_distinct};

use super::keys::Key;
use super::values::value_at;
use f8_spec::Memory;
use std::alloc::Global;
use toml::{Table, Value};

/// No key stands twice in a table, since it is a map.
fn keys_differ(table: &Table)
    ensures { are_distinct (table_view table.now) ≡ true }
{
    let _count = table.len();
}

/// Nor in a table among the entries of a list.
fn keys_differ_in(entries: &[Value])
    ensures { entries_are_distinct (items_view entries.now) ≡ true }
{
    for entry in entries {
        if let Some(table) = entry.as_table() {
            keys_differ(table);
        }
    }
}

/// Nor in a table of the list of chips.
fn keys_differ_in_chips(cart: &Table)
    ensures { chips_are_distinct (found_at ChipKey (table_view cart.now)) ≡ true }
{
    let Some(chips) = value_at(cart, Key::Chip) else {
        return;
    };
    if let Some(entries) = chips.as_array() {
        keys_differ_in(entries.as_slice());
    }
}

/// A document that reads as a described table. It can be written, since such a table isn't deep and holds no date.
pub fn document(alloc: Global, cart: &Table) -> Result<String, Memory>
    requires { IsOk (description_in (table_view cart.now)) }
    ensures { IfOk result (λ text. parse_document (string_bytes text)
        ≡ Some (table_view cart.now)) }
{
    keys_differ(cart);
    keys_differ_in_chips(cart);
    match toml::table_to_string(alloc, cart) {
        Ok(text) => Ok(text),
        Err(toml::ser::Error::OutOfMemory) => Err(Memory),
        Err(toml::ser::Error::DateInvalid) => unreachable!(),
    }
}
