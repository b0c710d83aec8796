// What the checker says of a cartridge.
use abs_domain::{Abs, Point, Reason};
use abs_step::Annotation;
use console_spec::VerdictWord;

/// What is found of a cartridge, and what shows it (this project's own).
#[derive(Debug, Drop)]
pub enum Verdict {
    /// Every bus step of every run is served: all that is known is safe and free of faults.
    Whole(Annotation),

    /// All that is known is safe, but at some point a read at the data counter may find no chip that answers.
    Agreed(Annotation),

    /// A state is reached that isn't safe at its point, for this reason.
    Refused {
        point: Point,
        state: Abs,
        reason: Reason,
    },

    /// States are reached at more than 65,536 points.
    TooMany,
}

impl Verdict {
    ghost use Rattle.std.specs.Prelude.{◌≡◌};
    ghost use Rattle.cart_checker.specs.Verdicts.{verdict_word};

    /// What is told of it at a run.
    pub fn word(&self) -> VerdictWord
        ensures { result ≡ verdict_word self.now }
    {
        match self {
            Verdict::Whole(_) => VerdictWord::Whole,
            Verdict::Agreed(_) => VerdictWord::Agreed,
            Verdict::Refused { .. } | Verdict::TooMany => VerdictWord::NoVerdict,
        }
    }
}
