//! Reads the bytes of a file of hexadecimal digits (the form is this project's own): two digits a byte, in either case, with blanks,
//! tabs and line ends anywhere.
#![tactic(auto)]

mod answer;
mod read;

pub use answer::HexAnswer;
pub use read::{BYTE_LIMIT, read_hex};
