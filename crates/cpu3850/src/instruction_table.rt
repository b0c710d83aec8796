// What each opcode says of its instruction, in a table.
use super::steps::{StepRow, list};
use f8_ops::registers::{H, K, Q};
use f8_ops::{Op, Row, decode, row_of};
use std::marker::Model;

/// An instruction, with what its opcode alone says of it: its row, the port of `INS` and `OUTS`, the first register of the pair that
/// it loads, the places of its last step and of the step with which its results come, and its steps where no branch is taken and
/// where one is.
#[derive(Clone, Copy, Debug)]
pub struct Instruction {
    pub op: Op,
    pub row: Row,
    pub port: u8,
    pub pair: u8,
    pub last_step: u8,
    pub effect_at: u8,
    pub steps: StepRow,
    pub steps_taken: StepRow,
}

impl Instruction {
    ghost use Rattle.std.specs.Prelude.{◌≡◌};
    ghost use Rattle.f8_spec.specs.Instructions.{InRange};
    ghost use Rattle.cpu3850.specs.Held.{IsInstruction};

    fn of(op: Op) -> Instruction
        requires { InRange op }
        ensures op { result.op ≡ op }
        ensures right { IsInstruction result }
    {
        let row = row_of(op);
        Instruction {
            op,
            row,
            port: port_of(op),
            pair: pair_of(op),
            last_step: last_step(row),
            effect_at: effect_at(row),
            steps: list(op, false).row(),
            steps_taken: list(op, true).row(),
        }
    }
}

/// The instruction of each opcode, and none of a reserved one. It is worked out once, so that an opcode is looked up and not decoded
/// at each step.
#[derive(Debug, Drop)]
pub struct InstructionTable {
    rows: [Option<Instruction>; 256],
}

impl Model for InstructionTable {
    ghost use Rattle.std.specs.Prelude.{List, Option};
    ghost use Rattle.cpu3850.specs.declared.instruction_table.Instruction.{Instruction};
    ghost use Rattle.cpu3850.specs.Held.{IsTable};

    ghost Value = { List (Option Instruction) };

    ghost view = { λ t. t.rows };

    ghost invariant = { λ t. IsTable t.rows };
}

impl InstructionTable {
    ghost use Rattle.cpu3850.specs.Held.{IsRow};

    pub fn new() -> InstructionTable {
        let mut rows = [None; 256];
        for code in 0..256 {
            rows[code] = InstructionTable::row(code as u8);
        }
        InstructionTable { rows }
    }

    fn row(code: u8) -> Option<Instruction>
        ensures { IsRow code result }
    {
        match instruction_of(code) {
            Some(op) => Some(Instruction::of(op)),
            None => None,
        }
    }

    /// The instruction of an opcode, and none of a reserved one.
    #[inline]
    pub fn instruction(&self, code: u8) -> Option<Instruction>
        ensures { IsRow code result }
    {
        self.rows[code as usize]
    }
}

ghost use Rattle.std.specs.Prelude.{◌≡◌, ◌<◌, ◌≤◌};
ghost use Rattle.f8_spec.specs.Instructions.{decoded};
ghost use Rattle.console_spec.specs.Processor.{port_field};
ghost use Rattle.cpu3850.specs.CpuSteps.{last_step, effect_at, pair_of};
ghost use Rattle.cpu3850.specs.Held.{Decodes};

#[tactic(auto, using(f8_ops::proofs::OpcodeTable::opcode_laws))]
fn instruction_of(code: u8) -> Option<Op>
    ensures { Decodes code result }
{
    decode(code).ok()
}

/// The place of the last step, the fetch of the next opcode.
fn last_step(row: Row) -> u8
    ensures { result ≡ last_step row }
{
    match row {
        Row::Plain | Row::PlainLong => 0,
        Row::Idle
        | Row::ReadData
        | Row::StoreData
        | Row::Return
        | Row::Immediate
        | Row::Exchange
        | Row::AddData
        | Row::BranchIsar => 1,
        Row::Jump => 3,
        Row::Call | Row::LoadData => 4,
        _ => 2,
    }
}

/// The step with which the results come.
fn effect_at(row: Row) -> u8
    ensures { result ≡ effect_at row }
{
    match row {
        Row::Idle | Row::ReadData | Row::Immediate | Row::Call | Row::Jump => 0,
        Row::PortIn | Row::ShortIn => 1,
        _ => last_step(row),
    }
}

/// The first register of the pair that `LR K,P`, `LR Q,DC` and `LR H,DC` load.
fn pair_of(op: Op) -> u8
    ensures value { result ≡ pair_of op }
    ensures below { result ≤ 14 }
{
    match op {
        Op::LrQDc => Q,
        Op::LrHDc => H,
        _ => K,
    }
}

/// The port of `INS` and `OUTS`.
fn port_of(op: Op) -> u8
    ensures { result ≡ port_field op }
{
    match op {
        Op::Ins { n } | Op::Outs { n } => n,
        _ => 0,
    }
}
