//! The data bus of a rack of chips: one bus step asks the chips, decides by the bus rule, and either every chip and the probe
//! settle the step, or none does.
#![tactic(auto)]

mod ask;
mod cycle;
mod decide;
mod fault;
mod index;
mod indexed;
mod listed_poll;
mod marks;
mod order;
mod page_sockets;
mod page_survey;
mod parties;
mod poll;
mod rule;
mod settle;
mod transfer;

use chip_face::Chip;
pub use cycle::{Cycle, Served};
pub use f8_spec::Party;
pub use fault::BusFault;
pub use index::Index;
pub use indexed::{step_asking, step_by, step_known};
pub use marks::{Halves, Marks};
pub use order::{order_law, sockets_law};
pub use parties::Parties;
pub use transfer::step;

/// The chips of a machine, by their sockets: a chip's place is its socket.
pub type Rack = Vec<Box<dyn Chip>>;
