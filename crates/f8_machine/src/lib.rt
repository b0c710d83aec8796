//! A machine on a rack of chips: the 3850 with the probe, which carry out instructions in bus steps (Fairchild F8 User's Guide;
//! Mostek 3850, 3851 and 3853 data sheets).
#![tactic(auto)]

mod all_chips;
mod bus;
mod bus_step;
mod carry;
mod chain;
mod choose;
mod flow;
mod heard;
mod interrupt;
mod machine;
mod outcome;
mod pulse;
mod record;
mod reset;
mod unserved;
mod wrote;

pub use chain::Chain;
pub use console_spec::{PortWrite, Regs, Who};
pub use data_bus::{BusFault, Rack};
pub use heard::Heard;
pub use machine::Machine;
pub use outcome::Outcome;
pub use record::{MOST_HEARD, Record};
