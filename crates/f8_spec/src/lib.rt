//! What the F8 hardware is: the definitions that the contracts of all crates above cite, in `specs/`, and the plain types that
//! those definitions name. There is no code here beyond the types and the lengths of a bus step.
#![tactic(auto)]

mod bus;
mod chips;
mod instructions;

pub use bus::{BusRule, Counter, Counters, Driver, LONG_STEP_PHI, Party, SHORT_STEP_PHI};
pub use chips::{ChipKind, Offer, Page, PageSort, PowerOn};
pub use instructions::{Op, Row};
use thiserror::Error;

/// Want of memory, where a call can fail for nothing else.
#[derive(Debug, Drop, Error)]
#[error("out of memory")]
pub struct Memory;
