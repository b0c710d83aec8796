// What the calls of this crate answer where a module or a list of modules is refused.
ghost use Rattle.std.specs.Prelude.{◌≡◌};
ghost use Rattle.f8_link.specs.Answers.{module_cause_number, link_cause_number};

use f8_asm::AsmCause;
use text_lines::ReadError;
use thiserror::Error;

/// What is wrong with a line of a module.
#[derive(Clone, Copy, Debug, PartialEq, Eq, Error)]
pub enum ModCause {
    /// What the assembler refuses too.
    #[error("{0}")]
    Asm(AsmCause),
    /// A value that hangs on where a module lies, where none may stand.
    #[error("placed value out of place")]
    Shape,
}

impl ModCause {
    /// The number of the cause: that of the assembler's, or 12.
    pub fn number(self) -> u8
        ensures { result ≡ module_cause_number self }
    {
        match self {
            ModCause::Asm(cause) => cause.number(),
            ModCause::Shape => 12,
        }
    }
}

/// The first fault of a module. Lines and columns are counted from 1, columns in bytes.
#[derive(Clone, Copy, Debug, PartialEq, Eq, Error)]
#[error("line {line}, column {column}: {cause}")]
pub struct ModFault {
    pub line: u32,
    pub column: u32,
    pub cause: ModCause,
}

/// Why a text has no object.
pub type ModAnswer = ReadError<ModFault>;

/// What is wrong with a module among those that are linked.
#[derive(Clone, Copy, Debug, PartialEq, Eq, Error)]
pub enum LinkCause {
    /// It exports a name that an earlier module exports, or one name twice.
    #[error("name exported twice")]
    Twice,
    /// It imports a name that none exports.
    #[error("name not exported")]
    Missing,
    /// A byte of it lies outside its room.
    #[error("outside the room")]
    Outside,
    /// A byte of it lies on one of an earlier module.
    #[error("overlap")]
    Overlap,
    /// A value doesn't fit its place.
    #[error("out of reach")]
    Reach,
}

impl LinkCause {
    /// The number of the cause: 1 to 5.
    pub fn number(self) -> u8
        ensures { result ≡ link_cause_number self }
    {
        match self {
            LinkCause::Twice => 1,
            LinkCause::Missing => 2,
            LinkCause::Outside => 3,
            LinkCause::Overlap => 4,
            LinkCause::Reach => 5,
        }
    }
}

/// The first fault of some modules. A module is told by its number, counted from 0.
#[derive(Clone, Copy, Debug, PartialEq, Eq, Error)]
#[error("module {module}: {cause}")]
pub struct LinkFault {
    pub module: u8,
    pub cause: LinkCause,
}

/// Why modules don't go together.
pub type LinkAnswer = ReadError<LinkFault>;
