// How a run on a rack is told.
use rack_run::Detail;

/// How a run on a rack is told.
#[derive(Clone, Copy)]
pub enum Manner {
    /// Whole, as `play` does.
    Whole {
        /// With every bus step.
        traced: bool,
    },

    /// By a summary, as `gen` does.
    Summary {
        /// The number from which the cartridge is generated.
        seed: u32,
    },
}

impl Manner {
    ghost use Rattle.std.specs.Prelude.{◌≡◌};
    ghost use Rattle.channel_f.specs.Manners.{detail_of};

    /// What is told of the run on its way.
    pub fn detail(self) -> Detail
        ensures { result ≡ detail_of self }
    {
        match self {
            Manner::Whole { traced: true } => Detail::Steps,
            Manner::Whole { traced: false } => Detail::Writes,
            Manner::Summary { .. } => Detail::Nothing,
        }
    }
}
