//! What each address is to the chips of a description: whose it is, what lies there, and which byte stays there; how many of the chips
//! have each port; and what holds of the chips of a kind, of all addresses and of all chips.
#![tactic(auto)]

mod chips;
mod entry;
mod holders;
mod kinds;
mod pages;
mod ports;
mod table;

pub use console_spec::Sort;
pub use f8_spec::Memory;
pub use table::Map;
