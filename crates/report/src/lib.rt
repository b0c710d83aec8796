//! The lines that the program tells runs, verdicts and errors by (this project's own), each on a buffer of its own, so that no writer takes
//! memory. Every line is ASCII and ends with a line feed; numbers are decimal without leading zeros, or have a fixed number of
//! hexadecimal capitals.
#![tactic(auto)]

mod check_lines;
mod error_lines;
mod line_buffer;
mod run_lines;
mod told_lines;

pub use check_lines::{
    agreed_line, notclosed_line, refused_line, toomany_line, unsafe_line, whole_line,
};
pub use console_spec::VerdictWord;
pub use error_lines::{
    Reader, error_asm, error_cart, error_hex, error_link, error_long, error_module, error_rack,
    error_reader, error_sockets, error_store, error_toml, error_words, kind_text,
};
pub use line_buffer::{LINE_ROOM, Line};
pub use run_lines::{
    regs_line, scratch_line, stop_done_line, stop_fault_line, stop_reserved_line, total_line,
    verdict_line,
};
pub use told_lines::{bus_fault_line, bus_line, frame_line, out_line, row_line};
