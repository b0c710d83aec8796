//! Worked states and steps of the checker, verdicts and certificates of small cartridges. This crate has tests alone, so that the crates
//! that it calls aren't proved once more with them.
#![tactic(auto)]

#[cfg(test)]
mod certificates;
#[cfg(test)]
mod chips;
#[cfg(test)]
mod states;
#[cfg(test)]
mod steps;
#[cfg(test)]
mod verdicts;
