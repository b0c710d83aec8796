// What each opcode says of its instruction, in a table.
ghost use Rattle.std.specs.Prelude.{◌≡◌};
ghost use Rattle.f8_isa.specs.InstructionRows.{IsTable, IsRow};

use f8_ops::{Op, Row, decode, has_long_fetch, phi, row_of, step_phi};
use std::marker::Model;

/// An instruction, with what its opcode alone says of it: its row, and its clocks, in Φ, where no branch is taken and where one is.
#[derive(Clone, Copy)]
pub struct Instruction {
    pub op: Op,
    pub row: Row,
    pub clocks: u8,
    pub clocks_taken: u8,
}

impl Instruction {
    ghost use Rattle.std.specs.Prelude.{◌≡◌};
    ghost use Rattle.f8_spec.specs.Instructions.{InRange, row_of, fetch_clocks};
    ghost use Rattle.f8_isa.specs.InstructionRows.{IsInstruction};

    /// The clocks of its last fetch, in Φ.
    pub fn fetch_phi(&self) -> u64
        requires { IsInstruction self.now }
        ensures { result ≡ fetch_clocks (row_of self.now.op) }
    {
        u64::from(step_phi(has_long_fetch(self.row)))
    }

    fn of(op: Op) -> Instruction
        requires { InRange op }
        ensures op { result.op ≡ op }
        ensures right { IsInstruction result }
    {
        Instruction {
            op,
            row: row_of(op),
            clocks: phi(op, false),
            clocks_taken: phi(op, true),
        }
    }
}

/// The instruction of each opcode, and none of a reserved one. It is worked out once, so that an opcode is looked up and not searched.
#[derive(Drop)]
pub struct InstructionTable {
    rows: [Option<Instruction>; 256],
}

impl Model for InstructionTable {
    ghost use Rattle.std.specs.Prelude.{List, Option};
    ghost use Rattle.f8_isa.specs.declared.instruction_table.Instruction.{Instruction};
    ghost use Rattle.f8_isa.specs.InstructionRows.{IsTable};

    ghost Value = { List (Option Instruction) };

    ghost view = { λ t. t.rows };

    ghost invariant = { λ t. IsTable t.rows };
}

impl InstructionTable {
    pub fn new() -> InstructionTable {
        InstructionTable { rows: rows() }
    }

    /// The instruction of an opcode, and none of a reserved one.
    #[inline]
    pub fn instruction(&self, code: u8) -> Option<Instruction>
        ensures { IsRow code result }
    {
        self.rows[code as usize]
    }
}

/// The instruction of an opcode, and none of a reserved one.
fn row(code: u8) -> Option<Instruction>
    ensures { IsRow code result }
{
    match decode(code) {
        Ok(op) => Some(Instruction::of(op)),
        Err(_) => None,
    }
}

fn rows() -> [Option<Instruction>; 256]
    ensures { IsTable result }
{
    let mut rows = [None; 256];
    for code in 0..256 {
        rows[code] = row(code as u8);
    }
    rows
}
