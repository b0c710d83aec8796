//! The chain of chips that can interrupt: which of those that ask comes first (Mostek 3851 data sheet, interrupt priority in
//! and out).
#![tactic(auto)]

mod priority;

pub use priority::first_asking;
