//! The 3851, program storage unit (Mostek 3851 data sheet): 1,024 bytes of ROM, two data ports, a program counter, a stack register and
//! one data counter.
#![tactic(auto)]

mod chip;

pub use chip::Psu;
