//! Reads the script of a run (this project's own): what the keys and the pins of the chips get, when the run ends, and which frames are
//! shown. A script is a text of lines, each of one of six forms.
#![tactic(auto)]

mod answers;
mod draft;
mod event_list;
mod read;
mod script;
mod show_list;
mod statement;

pub use answers::{ScriptAnswer, ScriptCause, ScriptFault};
pub use event_list::EventList;
pub use read::read_script;
pub use script::{At, End, Event, Script};
pub use show_list::ShowList;
