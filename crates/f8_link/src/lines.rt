// A module's lines as its passes leave them.
use asm_text::Name;
use f8_asm::ParsedLine;

/// What is left to do for a line after the first pass.
#[derive(Drop)]
pub enum LineTask {
    /// A statement, which is all of the line.
    Statement(ParsedLine),
    /// One name of a line that exports: the line's number, the name's column, and the name.
    Export(u32, u32, Name),
}

/// A line and the offset where it begins.
#[derive(Drop)]
pub struct PlacedLine {
    pub offset: u32,
    pub line: LineTask,
}
