//! Assembler and disassembler for F8 code. The dialect is this project's own, after the mnemonics of the
//! Fairchild F8 User's Guide.
#![tactic(auto)]

mod answers;
mod code;
mod faults;
mod fields;
mod formulas;
mod grammar;
mod image;
mod judging;
mod laws;
mod line;
mod listing;
mod marks;
mod operands;
mod pass_one;
mod pass_three;
mod pass_two;
mod pieces;
mod registers;
mod spelling;
mod statements;
mod symbols;
mod table;
mod text;
mod values;
mod words;

pub use answers::{AsmAnswer, AsmCause, AsmFault, Room};
pub use faults::{LineFault, LineStop, form};
pub use fields::{Field, octet, small};
pub use formulas::{Formula, Step};
pub use grammar::column_of;
pub use image::{Image, assemble};
pub use judging::{byte, unsigned_value, with_field};
pub use laws::expression_law;
pub use line::ParsedLine;
pub use listing::{Text, disassemble};
pub use marks::{is_free, mark, no_marks};
pub use operands::{Operand, OperandList, Statement, statement_size};
pub use pass_one::{name_label, parsed};
pub use pass_two::is_inside;
pub use registers::is_word;
pub use statements::comma;
pub use symbols::Symbols;
pub use table::Table;
pub use text::{end_of, fault_by, line_tokens};
pub use values::{Operator, Outcome, Prefix, operator_value, prefix_value};
pub use words::{ItemSize, Single, is_reserved};
