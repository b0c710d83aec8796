//! The generated cartridge, a large valid input that anyone can make again from one number, and the lines that sum up its run. All of it
//! is this project's own.
#![tactic(auto)]

mod bytes;
mod chips;
mod draws;
mod lines;
mod scratchpad;

pub use chip_face::{ChipList, Memory};
pub use chips::generated_chips;
pub use lines::{gen_line, scratch_sum_line, writes_line};
pub use scratchpad::scratch_sum;
