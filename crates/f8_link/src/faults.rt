// Faults of one line of a module, before its number is put in.
ghost use Rattle.std.specs.Prelude.{◌≡◌};
ghost use Rattle.f8_link.specs.Answers.{fault_at, line_fault_of, fault_of, fault_by};

use crate::answers::{ModCause, ModFault};
use f8_asm::{AsmFault, LineFault};
use text_lines::ReadError;
use thiserror::Error;

/// A fault of a line. The column is `None` past the line's last token.
#[derive(Clone, Copy, Debug, PartialEq, Eq, Error)]
#[error("{cause}")]
pub struct ModuleLineFault {
    pub column: Option<u32>,
    pub cause: ModCause,
}

/// Why a line has no place or no bytes.
pub type ModuleLineStop = ReadError<ModuleLineFault>;

impl From<ModuleLineFault> for ReadError<ModuleLineFault> {
    ghost use Rattle.std.specs.Prelude.{◌≡◌};
    ghost use Rattle.text_lines.specs.declared.read_error.ReadError.TheVariants.{Fault};

    ghost from_gives = { λ f e. e ≡ Fault f };

    fn from(fault: ModuleLineFault) -> ReadError<ModuleLineFault> {
        ReadError::Fault(fault)
    }
}

/// A fault at a column.
pub fn fault_at(column: u32, cause: ModCause) -> ModuleLineFault
    ensures { result ≡ fault_at column cause }
{
    ModuleLineFault {
        column: Some(column),
        cause,
    }
}

/// A fault that the assembler knows.
pub fn line_fault_of(fault: LineFault) -> ModuleLineFault
    ensures { result ≡ line_fault_of fault }
{
    ModuleLineFault {
        column: fault.column,
        cause: ModCause::Asm(fault.cause),
    }
}

/// A fault of a text that the assembler knows.
pub fn fault_of(fault: AsmFault) -> ModFault
    ensures { result ≡ fault_of fault }
{
    ModFault {
        line: fault.line,
        column: fault.column,
        cause: ModCause::Asm(fault.cause),
    }
}

/// A line's fault with the line's number. Where no token is left it stands past the last, where the line ends.
pub fn fault_by(number: u32, end: u32, fault: ModuleLineFault) -> ModFault
    ensures { result ≡ fault_by number end fault }
{
    ModFault {
        line: number,
        column: fault.column.unwrap_or(end),
        cause: fault.cause,
    }
}
