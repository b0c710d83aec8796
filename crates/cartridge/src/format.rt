// The formats of a description.
ghost use Rattle.std.specs.Prelude.{◌≡◌};
ghost use Rattle.toml.specs.View.{view, table_view};
ghost use Rattle.cartridge.specs.declared.keys.Key.TheVariants.{Format};
ghost use Rattle.cartridge.specs.Values.{value_needed};
ghost use Rattle.cartridge.specs.Description.{format_in as format_told};

use super::keys::Key;
use super::refusal::{CartCause, KeyFault};
use super::values::{number_in, value_at};
use toml::{Table, Value};

/// The format of a description (docs/FORMATS.md). Which keys are known goes by it. Both are this project's own.
#[derive(Clone, Copy, Debug, PartialEq, Eq)]
pub enum CartFormat {
    /// The pages of a 3853 are three runs.
    One,
    /// The pages of a 3853 are texts, and a chip may say how it is powered on.
    Two,
}

/// The format with a number.
fn format_in(value: &Value) -> Result<CartFormat, CartCause>
    ensures { result ≡ format_told (view value.now) }
{
    if number_in(1, 2, value)? == 1 {
        Ok(CartFormat::One)
    } else {
        Ok(CartFormat::Two)
    }
}

/// The format at its key, which has to be there.
pub fn format_at(table: &Table) -> Result<CartFormat, KeyFault>
    ensures { result ≡ value_needed Format format_told (table_view table.now) }
{
    let key = Key::Format;
    let Some(value) = value_at(table, key) else {
        return Err(KeyFault {
            key,
            cause: CartCause::Missing,
        });
    };
    format_in(value).map_err(|cause| KeyFault { key, cause })
}
