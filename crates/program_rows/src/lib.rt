//! Worked rows of the program: what fails under it, and other racks than its own. This crate has tests alone: it stands above
//! channel_f.
#![tactic(auto)]

#[cfg(test)]
mod calls;
#[cfg(test)]
mod failing;
#[cfg(test)]
mod interrupts;
#[cfg(test)]
mod never_failing;
#[cfg(test)]
mod parallel;
#[cfg(test)]
mod questions;
#[cfg(test)]
mod racks;
#[cfg(test)]
mod replay_log;
#[cfg(test)]
mod seats;
#[cfg(test)]
mod sixteen_chips;
#[cfg(test)]
mod tapes;
#[cfg(test)]
mod unserved;
