// What is found of a list of entries.
use abs_domain::{Point, Reason};

/// What is found of a list of entries (this project's own). Entries are told by their places in the list, from 0 on.
#[derive(Clone, Copy, Debug, PartialEq, Eq)]
pub enum CasesAnswer {
    /// The list is closed, and each case of it is safe and free of faults: every bus step of every run is served.
    Whole,

    /// The list is closed and each case of it is safe, but in some case a read at the data counter may find no chip that answers.
    Agreed,

    /// No entry of the list covers what holds at the point `to`: at the start, or behind a case of the entry at the place `from`.
    NotClosed { from: Option<usize>, to: Point },

    /// A case of the entry at this place isn't safe, for this reason.
    Unsafe { entry: usize, reason: Reason },
}
