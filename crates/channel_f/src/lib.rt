//! The program, but for the system (this project's own): words, files and a rack of chips in, lines and an exit status out.
#![tactic(auto)]

mod audit_lines;
mod auditing;
mod case_lines;
mod commands;
mod debugging;
mod error_lines;
mod laws;
mod lines_out;
mod manner;
mod playing;
mod status;
mod top;

pub use laws::{checked_certificate_law, proved_cart_law, sure_console_law};
pub use status::Status;
pub use top::console;
