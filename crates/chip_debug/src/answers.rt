// What is wrong with a command file.
ghost use Rattle.std.specs.Prelude.{◌≡◌};
ghost use Rattle.chip_debug.specs.Answers.{cause_number};

use line_words::{NumberFault, TextFault};
use text_lines::ReadError;
use thiserror::Error;

/// What is wrong with a line.
#[derive(Clone, Copy, Debug, PartialEq, Eq, Error)]
pub enum DebugCause {
    /// A byte that isn't printable ASCII, or words that make no command.
    #[error("no command")]
    Word,
    /// The digits of a number are out of form.
    #[error("not a number")]
    Number,
    /// A number is too small or too large for its place.
    #[error("out of range")]
    Range,
    /// With this line's count the file asks for more than 10,000,000 instructions.
    #[error("too many instructions")]
    Total,
}

impl DebugCause {
    /// The number of the cause, 1 to 4.
    pub fn number(self) -> u8
        ensures { result ≡ cause_number self }
    {
        match self {
            DebugCause::Word => 1,
            DebugCause::Number => 2,
            DebugCause::Range => 3,
            DebugCause::Total => 4,
        }
    }
}

impl From<NumberFault> for DebugCause {
    ghost use Rattle.std.specs.Prelude.{◌≡◌};
    ghost use Rattle.chip_debug.specs.Answers.{cause_of};

    ghost from_gives = { λ fault cause. cause ≡ cause_of fault };

    fn from(fault: NumberFault) -> DebugCause {
        match fault {
            NumberFault::NotNumber => DebugCause::Number,
            NumberFault::OutOfRange => DebugCause::Range,
        }
    }
}

/// The first fault of a command file, at its line.
pub type DebugFault = TextFault<DebugCause>;

/// Why a text is no list of commands: its first fault, or that memory is missing, at a line that has a command.
pub type DebugAnswer = ReadError<DebugFault>;
