//! The text of a list of entries, both ways, and what is found of it.
#![tactic(auto)]

mod cause;
mod confirmed;
mod entry_line;
mod laws;
mod numbers;
mod parts;
mod read;
mod sets;
mod words;
mod write;
mod written_entry;

pub use cause::{CasesCause, CasesError, CasesFault};
pub use confirmed::confirm;
pub use laws::written_law;
pub use read::read_cases;
pub use write::{MOST_TEXT, write_cases};
