//! A search for a list of entries that shows a cartridge, which is judged before it is told.
#![tactic(auto)]

mod behind;
mod causes;
mod effects;
mod growing;
mod key;
mod live;
mod numbers;
mod place;
mod proving;
mod round;
mod searching;
mod values;

pub use proving::{CasesText, ProveAnswer, prove};
