// The first fault of a text.
use std::fmt::Display;
use thiserror::Error;

/// The first fault of a text that is read line by line. Lines are counted from 1, blank lines and comments too.
#[derive(Clone, Copy, Debug, PartialEq, Eq, Error)]
#[error("line {line}: {cause}")]
pub struct TextFault<C: Display> {
    pub line: u32,
    pub cause: C,
}
