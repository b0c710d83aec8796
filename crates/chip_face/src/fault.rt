// Why a chip wasn't fitted.
use thiserror::Error;

/// Why a chip wasn't fitted. It is then as it was.
#[derive(Clone, Copy, Debug, PartialEq, Eq, Error)]
pub enum FitFault {
    /// The specification is for the other kind of chip.
    #[error("the specification is for another kind of chip")]
    WrongKind,

    /// There was no memory for what the chip keeps.
    #[error("out of memory")]
    Memory,
}

impl FitFault {
    ghost use Rattle.std.specs.Prelude.{◌≡◌};
    ghost use Rattle.chip_face.specs.Fitting.{fault_number};

    /// The number of the cause: 1 for `WrongKind`, 2 for `Memory`.
    pub fn number(self) -> u8
        ensures { result ≡ fault_number self }
    {
        match self {
            FitFault::WrongKind => 1,
            FitFault::Memory => 2,
        }
    }
}
