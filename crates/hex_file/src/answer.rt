// What comes instead of the bytes of a text.
use std::alloc::AllocError;
use thiserror::Error;

/// What comes instead of the bytes of a text.
#[derive(Clone, Copy, Debug, PartialEq, Eq, Error)]
pub enum HexAnswer {
    /// What is left of the text without its blanks isn't pairs of hexadecimal digits.
    #[error("bad hexadecimal digits")]
    Digits,
    /// The text spells more than 65,536 bytes.
    #[error("too many bytes")]
    Long,
    /// Memory is missing; it says nothing of the text.
    #[error("out of memory")]
    Memory,
}

impl From<AllocError> for HexAnswer {
    ghost use Rattle.std.specs.Prelude.{◌≡◌};
    ghost use Rattle.hex_file.specs.declared.answer.HexAnswer.TheVariants.{Memory};

    ghost from_gives = { λ _ e. e ≡ Memory };

    fn from(_error: AllocError) -> HexAnswer {
        HexAnswer::Memory
    }
}
