//! Chips for trying what stands on them: one that tells the steps that it heard, and one whose ROM differs in a byte from what is
//! described. They are this project's own.
#![tactic(auto)]

mod listener;
mod patched;
mod recorder;
mod round;

pub use listener::Listener;
pub use patched::Patched;
