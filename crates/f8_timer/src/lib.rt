//! The timer of a chip (Mostek 3851, 3853 and 3861 data sheets in outline), kept as its place in the cycle of its states.
#![tactic(auto)]

mod clock;
mod cycle;

pub use clock::{CYCLE_PHI, STEP_PHI, Timer};
