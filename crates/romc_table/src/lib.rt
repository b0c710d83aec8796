//! The 32 codes of a bus step, ROMC: their names, who drives the byte, and by which counter (Mostek 3850, 3851 and 3853 data sheets).
#![tactic(auto)]

mod codes;
mod roles;

pub use codes::Romc;
pub use f8_spec::{Counter, Counters, Driver};
pub use roles::{counter_of, driver_of};
