//! The program over the system.
#![tactic(auto)]

use program_body::program_body;
use std::process::ExitCode;

fn main(rt: HostRuntime) -> ExitCode {
    program_body!(rt)
}
