//! The description of a cartridge, a TOML document of this project's own: its chips with what is in them, and the registers that the
//! checker tracks. It is read, or refused with its first fault by chip, key and cause.
#![tactic(auto)]

mod chip_table;
mod content;
mod description;
mod document;
mod entries;
mod finish;
mod format;
mod keys;
mod known;
mod migration;
mod page_run;
mod page_texts;
mod plan;
mod refusal;
mod rom_room;
mod rom_source;
mod run_text;
mod values;

pub use f8_spec::Memory;
pub use finish::Unfilled;
pub use keys::Key;
pub use migration::{migrate, migration_law};
pub use plan::{Plan, read_cart};
pub use refusal::{CartAnswer, CartCause, CartFault};
