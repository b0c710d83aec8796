//! Certificates: invariant maps of cartridges as texts, both ways (the form is this project's own).
#![tactic(auto)]

mod answers;
mod entry;
mod examined;
mod laws;
mod parts;
mod ranges;
mod read;
mod write;

pub use answers::{CertAnswer, CertCause, CertFault};
pub use examined::{VerifyAnswer, verify};
pub use laws::{closed_map_law, round_trip_law, verified_map_law};
pub use read::{first_line, read_cert};
pub use write::write_cert;
