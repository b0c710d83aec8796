//! Entries of sets: what an instruction makes of them, case by case, and whether a list of them is closed and safe.
#![tactic(auto)]

mod answer;
mod cases;
mod entry;
mod judging;
mod laws;
mod list;
mod outcome;
mod part;
mod pointed;
mod reads;
mod spread;
mod writes;

pub use answer::CasesAnswer;
pub use cases::{Cases, MOST_CASES};
pub use entry::{Entry, IsarSet};
pub use judging::judge;
pub use laws::{case_soundness_law, entry_law, judged_law};
pub use list::CaseList;
pub use outcome::Outcome;
pub use part::Part;
pub use pointed::{pointed_register, register_in};
pub use reads::{MOST_READS, Reads, parts_read};
pub use spread::Spread;
pub use writes::{
    Written, registers_written, writes_accumulator, writes_data, writes_flags, writes_isar,
};
