//! What texts are made of (the form is this project's own). LF ends a line, the last may lack it, and a CR right before an LF is dropped.
//! Printable are the characters of ASCII from the blank to `~`. Hexadecimal digits are capitals.
#![tactic(auto)]

mod digits;
mod lines;
mod printable;
mod read_error;

pub use digits::hex2;
pub use lines::first_line;
pub use printable::all_printable;
pub use read_error::ReadError;
