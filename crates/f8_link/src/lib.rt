//! Modules of F8 assembly text and their linker (this project's own): a text that shares names with others becomes an object, and objects in
//! their rooms become one picture, which is that of all their lines in one text.
#![tactic(auto)]

mod answers;
mod compiler;
mod directives;
mod faults;
mod first_pass;
mod fixes;
mod lines;
mod linked;
mod linker;
mod objects;
mod parts;
mod pieces;
mod plan;
mod scope;
mod second_pass;
mod third_pass;
mod values;

pub use answers::{LinkAnswer, LinkCause, LinkFault, ModAnswer, ModCause, ModFault};
pub use compiler::compile;
pub use linked::Linked;
pub use linker::link;
pub use objects::{Fixup, FixupKind, Object};
pub use parts::{Part, PartList};
pub use plan::{ModuleLine, ModuleList, PlanAnswer, PlanCause, PlanFault, read_plan};
pub use values::{Base, Named};
