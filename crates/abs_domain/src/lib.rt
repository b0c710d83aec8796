//! Abstract states of the F8: what may be known of registers and counters at an instruction's beginning, in an order by how much is said;
//! and why one isn't safe.
#![tactic(auto)]

mod laws;
mod points;
mod reason;
mod scratchpad;
mod state;
mod status;
mod values;

pub use laws::{join_law, order_law, point_law, rank_law};
pub use points::{MOST_TRACKED, Point};
pub use reason::Reason;
pub use scratchpad::SCRATCHPAD_SIZE;
pub use state::Abs;
pub use values::{Bit, Digit, Val, Word};
