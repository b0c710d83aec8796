// What the values at the keys have to be.
ghost use Rattle.std.specs.Prelude.{◌≡◌, ◌<◌, option_map, false};
ghost use Rattle.toml.specs.View.{view, table_view};
ghost use Rattle.cartridge.specs.declared.keys.Key.TheVariants.{Kind};
ghost use Rattle.cartridge.specs.Keys.{value_at as found_at};
ghost use Rattle.cartridge.specs.Values.{value_needed, usually, within as lies_within, number_in as number_between};
ghost use Rattle.cartridge.specs.Values.{multiple_of as multiple_by, multiple_in as multiple_between};
ghost use Rattle.cartridge.specs.Values.{maybe_number as maybe_told, truth as truth_told, kind_named as kind_spelled};
ghost use Rattle.cartridge.specs.Values.{kind_in as kind_told};

use super::keys::Key;
use super::refusal::{CartCause, KeyFault};
use chip_face::ChipKind;
use toml::{Table, Value};

/// The value at a key.
pub fn value_at<'a>(table: &'a Table, key: Key) -> Option<&'a Value>
    ensures { option_map (λ v. view v.now) result ≡ found_at key (table_view table.now) }
{
    table.get(key.word())
}

/// A number, if it is from `first` to `last`.
fn within(first: u16, last: u16, number: i64) -> Result<u16, CartCause>
    ensures { result ≡ lies_within first last number }
{
    if number < i64::from(first) || number > i64::from(last) {
        return Err(CartCause::Range);
    }
    Ok(number as u16)
}

/// A whole number from `first` to `last`.
pub fn number_in(first: u16, last: u16, value: &Value) -> Result<u16, CartCause>
    ensures { result ≡ number_between first last (view value.now) }
{
    match value.as_integer() {
        Some(number) => within(first, last, number),
        None => Err(CartCause::WrongType),
    }
}

/// A number, if it is a multiple of `step`.
fn multiple_of(step: u16, number: u16) -> Result<u16, CartCause>
    requires { 0 < step }
    ensures { result ≡ multiple_by step number }
{
    if number % step != 0 {
        return Err(CartCause::Boundary);
    }
    Ok(number)
}

/// A multiple of `step` from `first` to `last`.
fn multiple_in(first: u16, last: u16, step: u16, value: &Value) -> Result<u16, CartCause>
    requires { 0 < step }
    ensures { result ≡ multiple_between first last step (view value.now) }
{
    multiple_of(step, number_in(first, last, value)?)
}

/// A truth value.
fn truth(value: &Value) -> Result<bool, CartCause>
    ensures { result ≡ truth_told (view value.now) }
{
    match value.as_bool() {
        Some(told) => Ok(told),
        None => Err(CartCause::WrongType),
    }
}

/// The kind of chip with a name.
fn kind_named(name: &str) -> Result<ChipKind, CartCause>
    ensures { result ≡ kind_spelled name.now }
{
    match name {
        "3851" => Ok(ChipKind::Psu),
        "3853" => Ok(ChipKind::Smi),
        "3861" => Ok(ChipKind::Pio),
        _ => Err(CartCause::Range),
    }
}

/// The name of a kind of chip.
fn kind_in(value: &Value) -> Result<ChipKind, CartCause>
    ensures { result ≡ kind_told (view value.now) }
{
    match value.as_str() {
        Some(name) => kind_named(name),
        None => Err(CartCause::WrongType),
    }
}

/// The kind of chip at the key of kinds, which has to be there.
pub fn kind_at(table: &Table) -> Result<ChipKind, KeyFault>
    ensures { result ≡ value_needed Kind kind_told (table_view table.now) }
{
    let key = Key::Kind;
    let Some(value) = value_at(table, key) else {
        return Err(KeyFault {
            key,
            cause: CartCause::Missing,
        });
    };
    kind_in(value).map_err(|cause| KeyFault { key, cause })
}

/// A multiple of `step` from `first` to `last` at a key that has to be there.
pub fn multiple_at(
    table: &Table,
    key: Key,
    first: u16,
    last: u16,
    step: u16,
) -> Result<u16, KeyFault>
    requires { 0 < step }
    ensures { result ≡ value_needed key (multiple_between first last step) (table_view table.now) }
{
    let Some(value) = value_at(table, key) else {
        return Err(KeyFault {
            key,
            cause: CartCause::Missing,
        });
    };
    multiple_in(first, last, step, value).map_err(|cause| KeyFault { key, cause })
}

/// A number from 0 to `last` at a key, and 0 where it is left out.
pub fn number_at(table: &Table, key: Key, last: u16) -> Result<u16, KeyFault>
    ensures { result ≡ usually key 0 (number_between 0 last) (table_view table.now) }
{
    let Some(value) = value_at(table, key) else {
        return Ok(0);
    };
    number_in(0, last, value).map_err(|cause| KeyFault { key, cause })
}

/// A number from 0 to 255 at a key that may be left out.
pub fn maybe_byte(table: &Table, key: Key) -> Result<Option<u8>, KeyFault>
    ensures { result ≡ maybe_told key 255 (table_view table.now) }
{
    let Some(value) = value_at(table, key) else {
        return Ok(None);
    };
    match number_in(0, 255, value) {
        Ok(number) => Ok(Some(number as u8)),
        Err(cause) => Err(KeyFault { key, cause }),
    }
}

/// An address at a key that may be left out.
pub fn maybe_address(table: &Table, key: Key) -> Result<Option<u16>, KeyFault>
    ensures { result ≡ maybe_told key 65535 (table_view table.now) }
{
    let Some(value) = value_at(table, key) else {
        return Ok(None);
    };
    match number_in(0, 65_535, value) {
        Ok(number) => Ok(Some(number)),
        Err(cause) => Err(KeyFault { key, cause }),
    }
}

/// A truth value at a key, and `false` where it is left out.
pub fn truth_at(table: &Table, key: Key) -> Result<bool, KeyFault>
    ensures { result ≡ usually key false truth_told (table_view table.now) }
{
    let Some(value) = value_at(table, key) else {
        return Ok(false);
    };
    truth(value).map_err(|cause| KeyFault { key, cause })
}
