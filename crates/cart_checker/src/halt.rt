// Why a search stops before its end.
use abs_domain::{Abs, Point, Reason};
use std::alloc::AllocError;

/// Why a search stops: for want of memory; a point more than an annotation may have; or a state that isn't safe at its point, with the
/// reason.
#[derive(Drop)]
pub(crate) enum Halt {
    Memory,
    TooMany,
    Refused(Point, Abs, Reason),
}

impl From<AllocError> for Halt {
    ghost use Rattle.std.specs.Prelude.{◌≡◌};
    ghost use Rattle.cart_checker.specs.declared.halt.Halt.TheVariants.{Memory};

    ghost from_gives = { λ _ halt. halt ≡ Memory };

    fn from(_: AllocError) -> Halt {
        Halt::Memory
    }
}
