// What is wrong with a script.
ghost use Rattle.std.specs.Prelude.{◌≡◌};
ghost use Rattle.pad_script.specs.Answers.{cause_number};

use line_words::{NumberFault, TextFault};
use text_lines::ReadError;
use thiserror::Error;

/// What is wrong with a line.
#[derive(Clone, Copy, Debug, PartialEq, Eq, Error)]
pub enum ScriptCause {
    /// A byte that isn't printable ASCII, or words that make no line.
    #[error("no line of a script")]
    Word,
    /// The digits of a number are out of form.
    #[error("not a number")]
    Number,
    /// A number is too small or too large for its place.
    #[error("out of range")]
    Range,
    /// There are 1,024 lines of events and shown frames before this one.
    #[error("too many lines")]
    TooMany,
    /// A second end of the run, or a second power-on byte.
    #[error("given twice")]
    Twice,
    /// The text ends, and has no end of the run.
    #[error("no end of the run")]
    NoEnd,
}

impl ScriptCause {
    /// The number of the cause, 1 to 6.
    pub fn number(self) -> u8
        ensures { result ≡ cause_number self }
    {
        match self {
            ScriptCause::Word => 1,
            ScriptCause::Number => 2,
            ScriptCause::Range => 3,
            ScriptCause::TooMany => 4,
            ScriptCause::Twice => 5,
            ScriptCause::NoEnd => 6,
        }
    }
}

impl From<NumberFault> for ScriptCause {
    ghost use Rattle.std.specs.Prelude.{◌≡◌};
    ghost use Rattle.pad_script.specs.Answers.{cause_of};

    ghost from_gives = { λ fault cause. cause ≡ cause_of fault };

    fn from(fault: NumberFault) -> ScriptCause {
        match fault {
            NumberFault::NotNumber => ScriptCause::Number,
            NumberFault::OutOfRange => ScriptCause::Range,
        }
    }
}

/// The first fault of a script, at its line.
pub type ScriptFault = TextFault<ScriptCause>;

/// Why a text is no script: its first fault, or that memory is missing, at a line of an event or a shown frame.
pub type ScriptAnswer = ReadError<ScriptFault>;
