//! Sets of bytes, of the numbers of registers and of words: those of a list, or any at all.
#![tactic(auto)]

mod bytes;
mod numbers;
mod words;

pub use bytes::{ByteSet, MOST_BYTES};
pub use numbers::{are_among, is_among, only, union_of};
pub use words::{MOST_WORDS, WordSet};
