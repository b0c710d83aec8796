//! The tokens of a line of F8 assembly, with their columns. The dialect is this project's own.
#![tactic(auto)]

mod answers;
mod bytes;
mod front;
mod line;

pub use answers::{Name, Token, TokenFault, TokenKind, TokenList};
pub use line::tokens;
