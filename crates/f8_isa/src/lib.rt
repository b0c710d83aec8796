//! The F8 instruction set over one flat memory, one set of counters and one set of ports, with the interrupts that the chips ask for and
//! without a chip (Fairchild F8 User's Guide).
#![tactic(auto)]

mod counters;
mod flat_memory;
mod instruction_table;
mod machine;
mod ports;
mod register_file;
mod requests;

pub use console_board::PortWrite;
pub use console_spec::Regs;
pub use f8_ops::Reserved;
pub use f8_spec::Memory;
pub use machine::{Done, Isa};
