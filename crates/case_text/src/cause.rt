// What is wrong with the text of a list of cases.
ghost use Rattle.std.specs.Prelude.{◌≡◌};
ghost use Rattle.case_text.specs.CasesText.{cause_number};

use text_lines::ReadError;
use thiserror::Error;

/// What is wrong with a line.
#[derive(Clone, Copy, Debug, PartialEq, Eq, Error)]
pub enum CasesCause {
    /// The first line isn't `F8CASES 1 N`, where N is one to seven decimal digits.
    #[error("not the first line of a list of cases")]
    Header,
    /// The number of entries isn't 1 to 65,536.
    #[error("no such number of entries")]
    Count,
    /// The words of a line are out of form.
    #[error("not an entry")]
    Field,
    /// The line isn't behind the one before.
    #[error("out of order")]
    Order,
    /// A line lacks its LF, a line is missing, or one is too many.
    #[error("not a line, or one too many")]
    End,
}

impl CasesCause {
    /// The number of the cause, 1 to 5.
    pub fn number(self) -> u8
        ensures { result ≡ cause_number self }
    {
        match self {
            CasesCause::Header => 1,
            CasesCause::Count => 2,
            CasesCause::Field => 3,
            CasesCause::Order => 4,
            CasesCause::End => 5,
        }
    }
}

/// The first fault of a text. Lines are counted from 1.
#[derive(Clone, Copy, Debug, PartialEq, Eq, Error)]
#[error("line {line}: {cause}")]
pub struct CasesFault {
    pub line: u32,
    pub cause: CasesCause,
}

/// Why a text is no list of cases: its first fault, or that memory is missing.
pub type CasesError = ReadError<CasesFault>;

impl From<CasesFault> for ReadError<CasesFault> {
    ghost use Rattle.std.specs.Prelude.{◌≡◌};
    ghost use Rattle.text_lines.specs.declared.read_error.ReadError.TheVariants.{Fault};

    ghost from_gives = { λ fault e. e ≡ Fault fault };

    fn from(fault: CasesFault) -> ReadError<CasesFault> {
        ReadError::Fault(fault)
    }
}
