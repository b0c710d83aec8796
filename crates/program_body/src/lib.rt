//! What the program's `main` does over the system: its words, its files, its standard output, and a rack of chips.
#![tactic(auto)]

mod body;
mod system;

pub use system::{exit_code, words_given};
