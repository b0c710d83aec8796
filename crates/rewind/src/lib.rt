//! The tape of a debugger that steps back: a machine with the log of what was done, and the law that power-on forgets what came to chips.
#![tactic(auto)]

mod entry;
mod happening;
mod law;
mod log;
mod starting;
mod tape;
mod tape_mode;

pub use entry::Entry;
pub use law::forgetting_law;
pub use log::Log;
pub use tape::Tape;
