//! Runs on racks of chips, and of their descriptions on the flat instruction set alone, each told to a sink as it goes.
#![tactic(auto)]

mod detail;
mod ending;
mod events;
mod law;
mod limits;
mod on_flat;
mod on_rack;
mod player;
mod progress;
mod run;
mod seat;
mod sockets;
mod telling;

pub use detail::Detail;
pub use ending::{Ending, Halt};
pub use law::{chain_law, end_law, powers_law, trace_law};
pub use on_flat::{ReferFault, refer};
pub use on_rack::play;
pub use seat::fit_all;
pub use sockets::{Shortage, chain_of, first_shortage};
