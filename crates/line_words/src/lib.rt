//! Files that are read line by line (the form is this project's own): the words of a line, the numbers that they spell, and the loop over
//! the lines, up to the first fault. Single blanks part words, and blank lines and comments are skipped.
#![tactic(auto)]

mod line_draft;
mod numbers;
mod text_fault;
mod words;

pub use line_draft::{LineDraft, read_lines};
pub use numbers::{NumberFault, address_of, byte_of, number_of, number_within};
pub use text_fault::TextFault;
pub use words::{first_word, is_skipped, is_word, only_word};
