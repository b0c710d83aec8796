//! The instruction table: opcodes, lengths, clocks and names (Fairchild F8 User's Guide).
#![tactic(auto)]

mod mnemonics;
mod opcodes;
pub mod registers;
mod table;

pub use f8_spec::{Op, Row};
pub use mnemonics::name;
pub use opcodes::{Reserved, decode, encode};
pub use table::{
    INTERRUPT_PHI, MOST_INTERRUPTED_PHI, MOST_PHI, OWN_PORTS, RESET_PHI, clocks_law,
    has_long_fetch, length, phi, row_of, shields, step_phi,
};
