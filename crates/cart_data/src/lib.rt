//! A cartridge as its description comes to: the chips, what is said of their power-on, and the registers that the checker tracks.
#![tactic(auto)]

mod cart;
mod split;

pub use cart::Cart;
pub use split::Split;
