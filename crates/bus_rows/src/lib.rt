//! Worked bus steps on racks of boxed chips. This crate has tests alone: it stands above the chips, on which the bus doesn't.
#![tactic(auto)]

#[cfg(test)]
mod acknowledgements;
#[cfg(test)]
mod bus;
#[cfg(test)]
mod cart;
#[cfg(test)]
mod carts;
#[cfg(test)]
mod chain;
#[cfg(test)]
mod codes;
#[cfg(test)]
mod fitting;
#[cfg(test)]
mod free_steps;
#[cfg(test)]
mod ports;
#[cfg(test)]
mod questions;
#[cfg(test)]
mod reads;
#[cfg(test)]
mod stores;
#[cfg(test)]
mod tests;
#[cfg(test)]
mod walk;
#[cfg(test)]
mod words;
