//! Worked texts of modules, of modules linked and of plans, and lines that a sink doesn't take. This crate has tests alone, so that the
//! linker isn't proved once more with them.
#![tactic(auto)]

#[cfg(test)]
mod objects;
#[cfg(test)]
mod pictures;
#[cfg(test)]
mod plans;
#[cfg(test)]
mod printed_lines;
