// Why a text isn't read.
use std::alloc::{AllocError, AllocFailed};
use std::fmt::Display;
use thiserror::Error;

/// Why a text, or a part of one, isn't read. This project's own, as the readers of all its texts have it.
#[derive(Clone, Copy, Debug, PartialEq, Eq, Error)]
pub enum ReadError<F: Display> {
    /// It is at fault.
    #[error("{0}")]
    Fault(F),
    /// Memory is missing. It says nothing of the text.
    #[error("out of memory")]
    Memory,
}

impl<F: Display> From<AllocError> for ReadError<F> {
    ghost use Rattle.std.specs.Prelude.{◌≡◌};
    ghost use Rattle.text_lines.specs.declared.read_error.ReadError.TheVariants.{Memory};

    ghost from_gives = { λ _ e. e ≡ Memory };

    fn from(_error: AllocError) -> ReadError<F> {
        ReadError::Memory
    }
}

impl<T: Drop, F: Display> From<AllocFailed<T>> for ReadError<F> {
    ghost use Rattle.std.specs.Prelude.{◌≡◌};
    ghost use Rattle.text_lines.specs.declared.read_error.ReadError.TheVariants.{Memory};

    ghost from_gives = { λ _ e. e ≡ Memory };

    fn from(_error: AllocFailed<T>) -> ReadError<F> {
        ReadError::Memory
    }
}
