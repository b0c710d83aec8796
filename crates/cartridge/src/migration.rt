// The description of format 2 that says what a description of format 1 says, as a TOML document.
ghost use Rattle.std.specs.Prelude.{◌≡◌, Some, IfOk, OnOk, IsOk, string_bytes};
ghost use Rattle.toml.specs.Parse.{parse_document};
ghost use Rattle.toml.specs.View.{view, table_view, items_view};
ghost use Rattle.cartridge.specs.declared.keys.Key.TheVariants.{Chip as ChipKey};
ghost use Rattle.cartridge.specs.Keys.{key_word, run_keys, value_at as found_at};
ghost use Rattle.cartridge.specs.ChipTables.{three_runs as runs_told};
ghost use Rattle.cartridge.specs.Filling.{plan_of};
ghost use Rattle.cartridge.specs.Migrated.{with_value, with_pages, without_keys, migrated_chip as chip_told};
ghost use Rattle.cartridge.specs.Migrated.{migrated_entry as entry_told, migrated_entries as entries_told};
ghost use Rattle.cartridge.specs.Migrated.{migrated_chips as chips_told, with_chips, migrated_table as table_told};
ghost use Rattle.cartridge.specs.Migrated.{KeepsPlan};

use super::chip_table::three_runs;
use super::document::document;
use super::format::{CartFormat, format_at};
use super::keys::Key;
use super::known::is_spelled;
use super::refusal::TableStop;
use super::run_text::run_texts;
use super::values::kind_at;
use chip_face::ChipKind;
use f8_spec::Memory;
use std::alloc::{AllocError, Global};
use toml::{Table, Value};

/// Puts a value at a key, in place of the one that is there.
fn put(alloc: Global, table: &mut Table, key: Key, value: Value) -> Result<(), AllocError>
    ensures { OnOk result (table_view table.new
        ≡ with_value (key_word key) (view value) (table_view table.old)) }
{
    let name = String::from_str(alloc, key.word())?;
    drop(table.insert(name, value)?);
    Ok(())
}

/// The keys of three runs of pages.
const RUN_KEYS: [Key; 6] = [
    Key::RomPage,
    Key::RomPages,
    Key::RamPage,
    Key::RamPages,
    Key::VoidPage,
    Key::VoidPages,
];

/// Takes the keys of three runs of pages out of a table.
fn remove_runs(table: &mut Table)
    ensures { table_view table.new ≡ without_keys run_keys (table_view table.old) }
{
    table.retain(|name, _| !is_spelled(&RUN_KEYS, name.as_str()));
}

/// Puts the pages of a 3853 into its table as texts, in place of three runs. A table whose runs have a fault stays as it is.
fn put_pages(alloc: Global, chip: &mut Table) -> Result<(), AllocError>
    ensures { OnOk result (table_view chip.new
        ≡ with_pages (runs_told (table_view chip.old)) (table_view chip.old)) }
{
    let runs = match three_runs(alloc, chip) {
        Ok(runs) => runs,
        Err(TableStop::Fault(_)) => return Ok(()),
        Err(TableStop::Memory) => return Err(AllocError),
    };
    let texts = run_texts(alloc, runs.as_slice())?;
    remove_runs(chip);
    put(alloc, chip, Key::Pages, Value::Array(texts))
}

/// Migrates the table of a chip. Only that of a 3853 changes.
fn migrate_chip(alloc: Global, chip: &mut Table) -> Result<(), AllocError>
    ensures { OnOk result (table_view chip.new ≡ chip_told (table_view chip.old)) }
{
    match kind_at(chip) {
        Ok(ChipKind::Smi) => put_pages(alloc, chip),
        _ => Ok(()),
    }
}

/// Migrates an entry of the list of chips.
fn migrate_entry(alloc: Global, entry: &mut Value) -> Result<(), AllocError>
    ensures { OnOk result (view entry.new ≡ entry_told (view entry.old)) }
{
    match entry.as_table_mut() {
        Some(chip) => migrate_chip(alloc, chip),
        None => Ok(()),
    }
}

/// Migrates the entries of the list of chips.
fn migrate_entries(alloc: Global, entries: &mut [Value]) -> Result<(), AllocError>
    ensures { OnOk result (items_view entries.new ≡ entries_told (items_view entries.old)) }
{
    for entry in entries.iter_mut() {
        migrate_entry(alloc, entry)?;
    }
    Ok(())
}

/// Migrates the list of chips.
fn migrate_chips(alloc: Global, chips: &mut Value) -> Result<(), AllocError>
    ensures { OnOk result (view chips.new ≡ chips_told (view chips.old)) }
{
    match chips.as_array_mut() {
        Some(entries) => migrate_entries(alloc, entries.as_mut_slice()),
        None => Ok(()),
    }
}

/// Migrates the chips of a description, where it has any.
fn put_chips(alloc: Global, cart: &mut Table) -> Result<(), AllocError>
    ensures { OnOk result (table_view cart.new
        ≡ with_chips (found_at ChipKey (table_view cart.old)) (table_view cart.old)) }
{
    match cart.get_mut(Key::Chip.word()) {
        Some(chips) => migrate_chips(alloc, chips),
        None => Ok(()),
    }
}

/// Migrates a description. One of format 2 stays as it is.
#[tactic(auto, unfolding(crate::specs::Migrated::migrated_table))]
fn migrate_table(alloc: Global, cart: &mut Table) -> Result<(), AllocError>
    ensures { OnOk result (table_view cart.new ≡ table_told (table_view cart.old)) }
{
    match format_at(cart) {
        Ok(CartFormat::One) => {
            put_chips(alloc, cart)?;
            put(alloc, cart, Key::Format, Value::Integer(2))
        }
        _ => Ok(()),
    }
}

/// A table that gives a plan gives the same plan once it is migrated.
pub fn migration_law(table: &Table)
    ensures { KeepsPlan (table_view table.now) }
{}

/// A TOML document that reads as the migrated table of a description: the description of format 2 that says the same. One of format 2 is its
/// own, but for comments and layout.
///
/// # Errors
///
/// `Memory`: memory is missing.
pub fn migrate(alloc: Global, mut table: Table) -> Result<String, Memory>
    requires { IsOk (plan_of (table_view table)) }
    ensures { IfOk result (λ text. parse_document (string_bytes text)
        ≡ Some (table_told (table_view table))) }
{
    match migrate_table(alloc, &mut table) {
        Ok(()) => document(alloc, &table),
        Err(AllocError) => Err(Memory),
    }
}
