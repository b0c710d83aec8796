//! Sums of bytes with their flags, the status word, and addresses that wrap (Fairchild F8 User's Guide).
#![tactic(auto)]

mod addresses;
mod laws;
mod status_word;
mod sums;

pub use addresses::wrap_add;
pub use laws::sum_law;
pub use status_word::Flags;
pub use sums::{Sum, add9, bcd};
