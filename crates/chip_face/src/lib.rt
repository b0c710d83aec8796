//! A chip as the bus sees it: the trait `Chip`, and what a chip is fitted with.
#![tactic(auto)]

mod chip_list;
mod face;
mod fault;
mod kinds;
mod lists;
mod powers;
mod sizes;
mod specification;

pub use chip_list::ChipList;
pub use f8_spec::{ChipKind, Memory, Offer, Page, PageSort, PowerOn};
pub use face::Chip;
pub use fault::FitFault;
pub use kinds::same_kind;
pub use lists::{Bytes, FixedList, PageList};
pub use powers::{Powers, USUAL_POWER};
pub use romc_table::{Counters, Romc};
pub use sizes::{MOST_CHIPS, PAGE_SIZE, PSU_ROM_SIZE, SMI_FIRST_PORT, rom_size};
pub use specification::ChipSpec;
