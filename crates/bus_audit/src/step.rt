// A bus step as a trace tells it.
use console_spec::Who;
use romc_table::Romc;

/// What a trace tells of a bus step beside its code and its length.
#[derive(Clone, Copy, Debug, PartialEq, Eq)]
pub enum TraceWhat {
    /// The step was served: its byte, and who drove that.
    Byte { byte: u8, who: Who },
    /// It wasn't served.
    Fault,
}

/// A bus step as a printed trace tells it: its code, whether it is a long one, of 6 Φ in place of 4, and what became of it. Which chip took the
/// byte of a store or of a port write isn't printed.
#[derive(Clone, Copy, Debug, PartialEq, Eq)]
pub struct TraceStep {
    pub romc: Romc,
    pub long: bool,
    pub what: TraceWhat,
}
