//! Worked values of the processor and of what stands below it: instructions, timers, counters, a map of chips, pictures, and programs
//! step by step along the bus and at once on a flat memory. This crate has tests alone, so that the crates that it calls aren't proved
//! once more with them.
#![tactic(auto)]

#[cfg(test)]
mod boards;
#[cfg(test)]
mod chips;
#[cfg(test)]
mod counters;
#[cfg(test)]
mod flat_programs;
#[cfg(test)]
mod instructions;
#[cfg(test)]
mod memory_maps;
#[cfg(test)]
mod pictures;
#[cfg(test)]
mod stepped_programs;
#[cfg(test)]
mod timers;
