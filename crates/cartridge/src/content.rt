// The bytes of a ROM: digits, or the name of the file that they are assembled from.
ghost use Rattle.std.specs.Prelude.{◌≡◌, ◌≤◌, IfOk, option_map, vec_len, string_bytes, Ok, Err, MatchResult};
ghost use Rattle.std.specs.Result.{result_ok};
ghost use Rattle.hex.specs.Hex.{decode_of};
ghost use Rattle.toml.specs.View.{view, table_view};
ghost use Rattle.cartridge.specs.declared.keys.Key.TheVariants.{Rom, Source};
ghost use Rattle.cartridge.specs.Faults.{at_key};
ghost use Rattle.text_lines.specs.ReadErrors.{SaysSeen};
ghost use Rattle.cartridge.specs.Values.{filled as filled_to, fitting, rom_in as rom_told, is_file_name as names_file};
ghost use Rattle.cartridge.specs.Values.{source_named as source_judged, source_in as source_told};
ghost use Rattle.cartridge.specs.ChipTables.{rom_of, mask_of, source_of};

use super::keys::Key;
use super::refusal::{CartCause, TableStop, fault_at};
use super::values::value_at;
use chip_face::Bytes;
use hex::FromHexError;
use std::alloc::{AllocError, Global};
use text_lines::all_printable;
use toml::{Table, Value};

/// So many bytes, of which the first are given, and the rest are FF.
fn filled(mut bytes: Vec<u8>, room: usize) -> Result<Bytes, AllocError>
    requires { vec_len bytes ≤ room }
    ensures { IfOk result (λ rom. rom ≡ filled_to room bytes.items) }
{
    bytes.resize(room, 0xFF)?;
    Ok(Bytes::from_vec(bytes))
}

/// So many bytes, of which at most all are given by two hexadecimal digits each.
fn bytes_of(alloc: Global, digits: &str, room: usize) -> Result<Option<Bytes>, AllocError>
    ensures { IfOk result (λ rom. rom ≡ result_ok (fitting room (decode_of digits.now))) }
{
    match hex::decode(alloc, digits) {
        Ok(bytes) if bytes.len() <= room => Ok(Some(filled(bytes, room)?)),
        Err(FromHexError::OutOfMemory) => Err(AllocError),
        _ => Ok(None),
    }
}

/// The bytes of a ROM, by its digits.
fn rom_in(alloc: Global, value: &Value, room: usize) -> Result<Bytes, TableStop>
    ensures { SaysSeen (λ rom. rom) result (at_key Rom (rom_told room (view value.now))) }
{
    let Some(digits) = value.as_str() else {
        return Err(fault_at(Key::Rom, CartCause::WrongType));
    };
    match bytes_of(alloc, digits, room)? {
        Some(bytes) => Ok(bytes),
        None => Err(fault_at(Key::Rom, CartCause::BadHex)),
    }
}

/// The bytes of a ROM, where no digits are given all FF.
pub fn rom_at(alloc: Global, table: &Table, room: usize) -> Result<Bytes, TableStop>
    ensures { SaysSeen (λ rom. rom) result (rom_of room (table_view table.now)) }
{
    match value_at(table, Key::Rom) {
        Some(value) => rom_in(alloc, value, room),
        None => Ok(filled(Vec::new(alloc), room)?),
    }
}

/// The bytes of a ROM that has to come from digits or from a source.
pub fn mask_at(alloc: Global, table: &Table, room: usize) -> Result<Bytes, TableStop>
    ensures { SaysSeen (λ rom. rom) result (mask_of room (table_view table.now)) }
{
    if value_at(table, Key::Rom).is_none() && value_at(table, Key::Source).is_none() {
        return Err(fault_at(Key::Rom, CartCause::Missing));
    }
    rom_at(alloc, table, room)
}

/// The name of a file: 1 to 64 printable characters of ASCII.
fn is_file_name(name: &str) -> bool
    ensures { result ≡ names_file name.now }
{
    1 <= name.len() && name.len() <= 64 && all_printable(name.as_bytes())
}

/// Judges the name of a source for so many bytes, beside which digits may be given.
fn judge_source(name: &str, room: usize, has_digits: bool) -> Result<(), CartCause>
    ensures { MatchResult result (λ _. source_judged room has_digits name.now ≡ Ok name.now)
        (λ cause. source_judged room has_digits name.now ≡ Err cause) }
{
    if !(is_file_name(name) && 1 <= room) {
        return Err(CartCause::Range);
    }
    if has_digits {
        return Err(CartCause::Both);
    }
    Ok(())
}

/// The name of a source for so many bytes.
fn source_in(
    alloc: Global,
    value: &Value,
    room: usize,
    has_digits: bool,
) -> Result<Option<String>, TableStop>
    ensures { SaysSeen (λ source. option_map string_bytes source) result
        (at_key Source (source_told room has_digits (view value.now))) }
{
    let Some(name) = value.as_str() else {
        return Err(fault_at(Key::Source, CartCause::WrongType));
    };
    if let Err(cause) = judge_source(name, room, has_digits) {
        return Err(fault_at(Key::Source, cause));
    }
    Ok(Some(String::from_str(alloc, name)?))
}

/// The name of the source of so many bytes, where the table has one.
pub fn source_at(alloc: Global, table: &Table, room: usize) -> Result<Option<String>, TableStop>
    ensures { SaysSeen (λ source. option_map string_bytes source) result
        (source_of room (table_view table.now)) }
{
    match value_at(table, Key::Source) {
        Some(value) => {
            let has_digits = value_at(table, Key::Rom).is_some();
            source_in(alloc, value, room, has_digits)
        }
        None => Ok(None),
    }
}
