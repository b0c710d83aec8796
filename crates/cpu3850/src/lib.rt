//! The 3850, central processing unit: the lists of bus steps, the byte that it drives in each, and what it takes of each (Fairchild
//! F8 User's Guide; Mostek 3850 data sheet).
#![tactic(auto)]

mod cpu;
mod instruction_table;
mod kept;
mod laws;
mod own_ports;
mod registers;
mod steps;

pub use console_spec::Regs;
pub use cpu::Cpu;
pub use f8_ops::{Op, Reserved};
pub use kept::Kept;
pub use laws::{instruction_law, plan_law, port_law, restore_law};
pub use romc_table::Romc;
pub use steps::{Step, Steps, list};
