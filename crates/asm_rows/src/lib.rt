//! Worked lines and texts of assembly, and bytes that are listed. This crate has tests alone, so that the assembler and the reader of
//! tokens aren't proved once more with them.
#![tactic(auto)]

#[cfg(test)]
mod texts;
#[cfg(test)]
mod token_lists;
