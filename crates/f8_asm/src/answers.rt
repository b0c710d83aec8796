// What the calls of this crate are given and answer.
ghost use Rattle.std.specs.Prelude.{◌≡◌};
ghost use Rattle.f8_asm.specs.Answers.{cause_number};

use text_lines::ReadError;
use thiserror::Error;

/// The addresses where bytes may lie, both ends counted. Where `first` is above `last` there are none.
#[derive(Clone, Copy, Debug, PartialEq, Eq)]
pub struct Room {
    pub first: u16,
    pub last: u16,
}

/// What is wrong with a line.
#[derive(Clone, Copy, Debug, PartialEq, Eq, Error)]
pub enum AsmCause {
    /// The line isn't UTF-8.
    #[error("not UTF-8")]
    Utf8,
    /// No token begins here.
    #[error("no token")]
    Token,
    /// No mnemonic or directive has this name.
    #[error("unknown mnemonic")]
    Unknown,
    /// The name has been given before.
    #[error("name given twice")]
    Twice,
    /// The name has no value, or not yet.
    #[error("undefined name")]
    Undefined,
    /// A number too large or too small for its place.
    #[error("out of range")]
    Range,
    /// A branch to a place farther than a displacement reaches.
    #[error("branch out of range")]
    BranchRange,
    /// A byte outside the room.
    #[error("outside the room")]
    Outside,
    /// A byte where one lies already.
    #[error("overlap")]
    Overlap,
    /// A token that fits nothing, or the line's end where something is missing.
    #[error("not a statement")]
    Form,
}

impl AsmCause {
    /// The number of the cause: 1 to 9 and 11.
    pub fn number(self) -> u8
        ensures { result ≡ cause_number self }
    {
        match self {
            AsmCause::Utf8 => 1,
            AsmCause::Token => 2,
            AsmCause::Unknown => 3,
            AsmCause::Twice => 4,
            AsmCause::Undefined => 5,
            AsmCause::Range => 6,
            AsmCause::BranchRange => 7,
            AsmCause::Outside => 8,
            AsmCause::Overlap => 9,
            AsmCause::Form => 11,
        }
    }
}

/// The first fault of a text. Lines and columns are counted from 1, columns in bytes.
#[derive(Clone, Copy, Debug, PartialEq, Eq, Error)]
#[error("line {line}, column {column}: {cause}")]
pub struct AsmFault {
    pub line: u32,
    pub column: u32,
    pub cause: AsmCause,
}

/// Why a text has no image.
pub type AsmAnswer = ReadError<AsmFault>;
