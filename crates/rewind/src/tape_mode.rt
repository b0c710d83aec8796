// What a tape knows of the machine that it plays.

/// Whether the last reset was done, and whether a fault has stopped the machine since.
#[derive(Clone, Copy, Debug, PartialEq, Eq)]
pub(crate) enum TapeMode {
    /// Reset was done, and no instruction since power-on or rewinding met a fault.
    Going,

    /// Reset wasn't done.
    Unbegun,

    /// An instruction behind all entries met a fault.
    Faulted,
}
