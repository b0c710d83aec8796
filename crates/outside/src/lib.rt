//! Where the program's bytes come from and go: stores of files and sinks of lines, in memory and over the system.
#![tactic(auto)]

mod call_list;
mod counted_reader;
mod counted_writer;
mod cut_list;
mod file_list;
mod file_store;
mod memory_sinks;
mod memory_stores;
mod out_sink;
mod sink;
mod store;

pub use call_list::CallList;
pub use cut_list::{Cut, CutList};
pub use f8_spec::Memory;
pub use file_list::{FileList, NamedFile};
pub use file_store::FileStore;
pub use memory_sinks::{MemSink, SureSink};
pub use memory_stores::{MemStore, SureStore};
pub use out_sink::OutSink;
pub use sink::{Sink, SinkFault};
pub use store::{FetchFault, Store};
