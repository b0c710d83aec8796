//! What is known at the points of a cartridge as a list of entries, which shows as much.
#![tactic(auto)]

mod laws;
mod noted;

pub use laws::noted_law;
pub use noted::noted_entries;
