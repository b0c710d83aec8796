// What is wrong with the text of a certificate.
ghost use Rattle.std.specs.Prelude.{◌≡◌};
ghost use Rattle.certificate.specs.Answers.{cause_number};

use text_lines::ReadError;
use thiserror::Error;

/// What is wrong with a line.
#[derive(Clone, Copy, Debug, PartialEq, Eq, Error)]
pub enum CertCause {
    /// The first line isn't `F8CERT 1 N`, where N is one to seven decimal digits.
    #[error("not the first line of a certificate")]
    Header,
    /// The number of points isn't 1 to 65,536.
    #[error("no such number of points")]
    Count,
    /// The fields of a line are out of form.
    #[error("not a point with its state")]
    Field,
    /// The point isn't behind that of the line before.
    #[error("out of order")]
    Order,
    /// A line lacks its LF, a line is missing, or one is too many.
    #[error("not a line, or one too many")]
    End,
    /// A tracked register's byte in the scratchpad isn't that of the point.
    #[error("not the point's byte")]
    SplitField,
}

impl CertCause {
    /// The number of the cause, 1 to 6.
    pub fn number(self) -> u8
        ensures { result ≡ cause_number self }
    {
        match self {
            CertCause::Header => 1,
            CertCause::Count => 2,
            CertCause::Field => 3,
            CertCause::Order => 4,
            CertCause::End => 5,
            CertCause::SplitField => 6,
        }
    }
}

/// The first fault of a text. Lines are counted from 1.
#[derive(Clone, Copy, Debug, PartialEq, Eq, Error)]
#[error("line {line}: {cause}")]
pub struct CertFault {
    pub line: u32,
    pub cause: CertCause,
}

/// Why a text is no certificate: its first fault, or that memory is missing, behind a first line that isn't at fault.
pub type CertAnswer = ReadError<CertFault>;

impl From<CertFault> for ReadError<CertFault> {
    ghost use Rattle.std.specs.Prelude.{◌≡◌};
    ghost use Rattle.text_lines.specs.declared.read_error.ReadError.TheVariants.{Fault};

    ghost from_gives = { λ fault e. e ≡ Fault fault };

    fn from(fault: CertFault) -> ReadError<CertFault> {
        ReadError::Fault(fault)
    }
}
