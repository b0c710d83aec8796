//! The 3861, peripheral input and output (Mostek 3861 data sheet): two data ports, control, timer and an interrupt, and neither memory nor
//! counters.
#![tactic(auto)]

mod chip;

pub use chip::Pio;
