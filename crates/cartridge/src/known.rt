// Which keys a table knows.
ghost use Rattle.std.specs.Prelude.{◌≡◌};
ghost use Rattle.toml.specs.View.{table_view};
ghost use Rattle.cartridge.specs.Keys.{is_spelled as spells, are_known as all_known, known as only_known};

use super::keys::Key;
use super::refusal::{CartCause, KeyFault};
use toml::Table;

/// A name is the spelling of one of the keys.
pub fn is_spelled(keys: &[Key], name: &str) -> bool
    ensures { result ≡ spells keys.now name.now }
{
    keys.iter().any(|key| name == key.word())
}

/// Every key of a table is one of these.
fn are_known(keys: &[Key], table: &Table) -> bool
    ensures { result ≡ all_known keys.now (table_view table.now) }
{
    table.keys().all(|name| is_spelled(keys, name.as_str()))
}

/// Refuses a table with a key that is none of these.
pub fn known(keys: &[Key], table: &Table) -> Result<(), KeyFault>
    ensures { result ≡ only_known keys.now (table_view table.now) }
{
    if are_known(keys, table) {
        Ok(())
    } else {
        Err(KeyFault {
            key: Key::Other,
            cause: CartCause::Unknown,
        })
    }
}
