// Why a description is refused: the chip, the key and the cause.
ghost use Rattle.std.specs.Prelude.{◌≡◌};
ghost use Rattle.text_lines.specs.declared.read_error.ReadError.TheVariants.{Fault};
ghost use Rattle.cartridge.specs.Faults.{cause_number};

use super::keys::Key;
use text_lines::ReadError;
use thiserror::Error;

/// What is wrong at a key.
#[derive(Clone, Copy, Debug, PartialEq, Eq, Error)]
pub enum CartCause {
    /// The key is left out.
    #[error("missing")]
    Missing,
    /// The table has a key that it doesn't know.
    #[error("unknown key")]
    Unknown,
    /// The value is of another type.
    #[error("wrong type")]
    WrongType,
    /// The value is too small, too large, or none of those that are known.
    #[error("out of range")]
    Range,
    /// The number isn't the multiple that it has to be, or the run of pages goes past the last page or over an earlier run.
    #[error("off its boundary")]
    Boundary,
    /// The list has too many entries.
    #[error("too many entries")]
    TooMany,
    /// The text isn't pairs of hexadecimal digits, or spells too many bytes.
    #[error("bad hexadecimal digits")]
    BadHex,
    /// Two keys are there of which one excludes the other.
    #[error("two keys that exclude each other")]
    Both,
}

impl CartCause {
    /// The number of the cause: 1 to 8.
    pub fn number(self) -> u8
        ensures { result ≡ cause_number self }
    {
        match self {
            CartCause::Missing => 1,
            CartCause::Unknown => 2,
            CartCause::WrongType => 3,
            CartCause::Range => 4,
            CartCause::Boundary => 5,
            CartCause::TooMany => 6,
            CartCause::BadHex => 7,
            CartCause::Both => 8,
        }
    }
}

/// The first fault of a description: the chip, counted from 0, or none where it stands at the top, and the key.
#[derive(Clone, Copy, Debug, PartialEq, Eq, Error)]
#[error("the description is at fault: {cause}")]
pub struct CartFault {
    pub chip: Option<u8>,
    pub key: Key,
    pub cause: CartCause,
}

/// Why a description gives no plan.
pub type CartAnswer = ReadError<CartFault>;

/// The first fault of one table.
#[derive(Clone, Copy, Debug, PartialEq, Eq, Error)]
#[error("{cause}")]
pub struct KeyFault {
    pub key: Key,
    pub cause: CartCause,
}

/// Why a table isn't read to its end.
pub type TableStop = ReadError<KeyFault>;

/// The fault of a value at a key.
pub fn fault_at(key: Key, cause: CartCause) -> TableStop
    ensures { result ≡ Fault (record { key = key; cause = cause }) }
{
    TableStop::Fault(KeyFault { key, cause })
}

impl From<KeyFault> for ReadError<KeyFault> {
    ghost use Rattle.std.specs.Prelude.{◌≡◌};
    ghost use Rattle.text_lines.specs.declared.read_error.ReadError.TheVariants.{Fault};

    ghost from_gives = { λ f e. e ≡ Fault f };

    fn from(fault: KeyFault) -> ReadError<KeyFault> {
        ReadError::Fault(fault)
    }
}
