//! One step of the cartridge checker: what is known after an instruction, where it may lead, and whether a state is safe.
#![tactic(auto)]

mod annotation;
mod bytes;
mod counters;
mod exits;
mod fault_free;
mod hazards;
mod inputs;
mod laws;
mod pairs;
mod registers;
mod scratchpad;
mod status;
mod step;
mod successors;
mod tracked;
mod ways;
mod writes;

pub use annotation::{Annotation, MOST_POINTS};
pub use fault_free::whole;
pub use laws::{
    analysis_law, fit_law, free_run_law, map_view_law, script_run_law, seated_view_law,
    served_step_law, sound_step_law, soundness_law, step_order_law, without_vectors_law,
};
pub use step::{after, instruction_at, start};
pub use successors::Successors;
