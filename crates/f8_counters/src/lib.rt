//! What several kinds of chip have alike: the counters and what each bus step does to them, control, timer and request, and four ports of which
//! two are data ports (Mostek 3851, 3853 and 3861 data sheets).
#![tactic(auto)]

mod interrupts;
mod io_ports;
mod offers;
mod ports;
mod registers;
mod words;

pub use interrupts::Interrupts;
pub use io_ports::IoPorts;
pub use offers::{counter_byte, offered, offered_if};
pub use ports::port_offset;
pub use registers::Registers;
pub use words::{high_byte, low_byte, with_high, with_low};
