// How much of a run is told.
/// How much of a run is told on the way to its ending.
#[derive(Clone, Copy, Debug, PartialEq, Eq)]
pub enum Detail {
    /// Nothing.
    Nothing,
    /// The writes that ports took, and the shown frames.
    Writes,
    /// These, and every bus step.
    Steps,
}

impl Detail {
    ghost use Rattle.std.specs.Prelude.{◌≡◌};
    ghost use Rattle.rack_run.specs.Texts.{is_traced, is_told};

    /// Bus steps are told.
    pub(crate) fn is_traced(self) -> bool
        ensures { result ≡ is_traced self }
    {
        match self {
            Detail::Nothing | Detail::Writes => false,
            Detail::Steps => true,
        }
    }

    /// Writes and frames are told.
    pub(crate) fn is_told(self) -> bool
        ensures { result ≡ is_told self }
    {
        match self {
            Detail::Nothing => false,
            Detail::Writes | Detail::Steps => true,
        }
    }
}
