//! The probe: the reference counters of the bus. It hears every bus step, as the storage chips do, and depends on none of them.
#![tactic(auto)]

mod addresses;
mod counters;

pub use counters::Probe;
