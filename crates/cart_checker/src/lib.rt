//! The checker of cartridges: what is known at each point that a run may come to, or why a cartridge can't be vouched for.
#![tactic(auto)]

mod check;
mod halt;
mod search;
mod verdict;
mod worklist;

pub use check::check_cart;
pub use verdict::Verdict;
