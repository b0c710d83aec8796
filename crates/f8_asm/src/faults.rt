// Faults of one line, before its number is put in.
ghost use Rattle.std.specs.Prelude.{◌≡◌};
ghost use Rattle.f8_asm.specs.Answers.{form};

use crate::answers::AsmCause;
use text_lines::ReadError;
use thiserror::Error;

/// A fault of a line. The column is `None` past the line's last token.
#[derive(Clone, Copy, Debug, PartialEq, Eq, Error)]
#[error("{cause}")]
pub struct LineFault {
    pub column: Option<u32>,
    pub cause: AsmCause,
}

/// A token that fits nothing, or the end of the line where something is missing.
pub fn form(column: Option<u32>) -> LineFault
    ensures { result ≡ form column }
{
    LineFault {
        column,
        cause: AsmCause::Form,
    }
}

/// Why a line isn't read to its end.
pub type LineStop = ReadError<LineFault>;

impl From<LineFault> for ReadError<LineFault> {
    ghost use Rattle.std.specs.Prelude.{◌≡◌};
    ghost use Rattle.text_lines.specs.declared.read_error.ReadError.TheVariants.{Fault};

    ghost from_gives = { λ f e. e ≡ Fault f };

    fn from(fault: LineFault) -> ReadError<LineFault> {
        ReadError::Fault(fault)
    }
}
