// A line as the first pass leaves it.
use crate::formulas::Formula;
use crate::operands::Statement;
use asm_text::Name;

/// A line as it was read: all but the values of names is known.
#[derive(Drop)]
pub struct ParsedLine {
    /// Its number, counted from 1.
    pub number: u32,
    /// The column past its last token.
    pub end: u32,
    pub label: Option<Name>,
    /// The column where its statement begins, if there is one.
    pub column: Option<u32>,
    pub statement: Statement<Formula>,
}

/// A line and the address where it begins.
#[derive(Drop)]
pub struct PlacedLine {
    pub address: u32,
    pub line: ParsedLine,
}
