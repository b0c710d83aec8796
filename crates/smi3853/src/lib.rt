//! The 3853, static memory interface (Mostek 3853 data sheet): pages of memory, a vector that can be written, a program counter, a stack
//! register and two data counters.
#![tactic(auto)]

mod chip;
mod fills;
mod space;

pub use chip::Smi;
