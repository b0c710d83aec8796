//! The audit of a trace: whether the bus steps of a printed trace, also one from elsewhere, can come from a cartridge.
#![tactic(auto)]

mod answers;
mod auditing;
mod inputs;
mod law;
mod matching;
mod printed;
mod read;
mod run;
mod spelled;
mod step;
mod trace;
mod turn;

pub use answers::AuditAnswer;
pub use auditing::audit;
pub use law::determinacy_law;
pub use printed::printed_law;
pub use read::{TraceAnswer, TraceFault, read_trace};
pub use step::{TraceStep, TraceWhat};
pub use trace::{ToldLine, TraceList};
