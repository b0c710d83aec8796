//! The chip-level debugger (this project's own): the reader of its command file, and a session that carries the commands out on a rack.
#![tactic(auto)]

mod answers;
mod breaks;
mod command;
mod command_line;
mod command_list;
mod draft;
mod meeting;
mod read;
mod replaying;
mod session;
mod session_lines;
mod sockets;
mod stepping;
mod telling;

pub use answers::{DebugAnswer, DebugCause, DebugFault};
pub use command::Command;
pub use command_list::CommandList;
pub use read::read_commands;
pub use session::Session;
pub use stepping::stepping_law;
