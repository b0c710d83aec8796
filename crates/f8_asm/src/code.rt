// The bytes of statements.
ghost use Rattle.std.specs.Prelude.{◌≡◌, ◌<◌, ◌∷◌, [], IfOk, map};
ghost use Rattle.f8_asm.specs.Answers.{SaysOfBytes};
ghost use Rattle.f8_asm.specs.Bytes.{word_bytes, single_bytes, item_bytes, list_bytes, bytes_of};
ghost use Rattle.f8_asm.specs.Evaluation.{values};
ghost use Rattle.f8_asm.specs.Formulas.{formula_value};
ghost use Rattle.f8_asm.specs.Statements.{operand_valued, statement_valued};

use crate::faults::LineStop;
use crate::fields::Field;
use crate::formulas::{Formula, Scope};
use crate::judging::{byte, displacement, unsigned_value, with_field};
use crate::operands::{Operand, Statement, valued};
use crate::values::Outcome;
use crate::words::{ItemSize, Single};
use f8_ops::encode;
use std::alloc::{AllocError, Global};

/// One byte.
fn one_byte(alloc: Global, byte: u8) -> Result<Vec<u8>, AllocError>
    ensures { IfOk result (λ bytes. bytes.items ≡ byte ∷ []) }
{
    Vec::from_slice(alloc, &[byte])
}

/// Two bytes.
fn two_bytes(alloc: Global, first: u8, second: u8) -> Result<Vec<u8>, AllocError>
    ensures { IfOk result (λ bytes. bytes.items ≡ first ∷ second ∷ []) }
{
    Vec::from_slice(alloc, &[first, second])
}

/// A word, high byte first.
fn word_bytes(alloc: Global, word: u16) -> Result<Vec<u8>, AllocError>
    ensures { IfOk result (λ bytes. bytes.items ≡ word_bytes word) }
{
    two_bytes(alloc, (word / 256) as u8, (word % 256) as u8)
}

/// An opcode and a word.
fn code_and_word(alloc: Global, code: u8, word: u16) -> Result<Vec<u8>, AllocError>
    ensures { IfOk result (λ bytes. bytes.items ≡ code ∷ word_bytes word) }
{
    Vec::from_slice(alloc, &[code, (word / 256) as u8, (word % 256) as u8])
}

/// A statement with one operand.
fn single_bytes(
    alloc: Global,
    address: u32,
    single: Single,
    operand: Operand<Outcome>,
) -> Result<Vec<u8>, LineStop>
    ensures { SaysOfBytes result (single_bytes address single operand) }
{
    match single {
        Single::Byte(code) => {
            let byte = byte(operand)?;
            Ok(two_bytes(alloc, code, byte)?)
        }
        Single::Port(code) => {
            let port = unsigned_value(255, operand)?;
            Ok(two_bytes(alloc, code, port as u8)?)
        }
        Single::Word(code) => {
            let word = unsigned_value(u16::MAX, operand)?;
            Ok(code_and_word(alloc, code, word)?)
        }
        Single::Branch(code) => {
            let displacement = displacement(address, operand)?;
            Ok(two_bytes(alloc, code, displacement)?)
        }
        Single::Small(field) => {
            let op = with_field(field, operand)?;
            Ok(one_byte(alloc, encode(op))?)
        }
        Single::Org | Single::Equ => Ok(Vec::new(alloc)),
    }
}

/// A branch on bits.
fn test_bytes(
    alloc: Global,
    address: u32,
    field: Field,
    bits: Operand<Outcome>,
    place: Operand<Outcome>,
) -> Result<Vec<u8>, LineStop>
    ensures { SaysOfBytes result (bytes_of address (Statement.Test field bits place)) }
{
    let op = with_field(field, bits)?;
    let displacement = displacement(address, place)?;
    Ok(two_bytes(alloc, encode(op), displacement)?)
}

/// An item of a list.
fn item_bytes(alloc: Global, size: ItemSize, operand: Operand<Outcome>) -> Result<Vec<u8>, LineStop>
    ensures { SaysOfBytes result (item_bytes size operand) }
{
    match size {
        ItemSize::Byte => {
            let byte = byte(operand)?;
            Ok(one_byte(alloc, byte)?)
        }
        ItemSize::Word => {
            let word = unsigned_value(u16::MAX, operand)?;
            Ok(word_bytes(alloc, word)?)
        }
    }
}

/// The items of a list.
fn list_bytes(
    alloc: Global,
    scope: &Scope,
    size: ItemSize,
    operands: &[Operand<Formula>],
) -> Result<Vec<u8>, LineStop>
    ensures { let acts = values scope.now.symbols.now scope.now.address in
        SaysOfBytes result (list_bytes size (map (operand_valued
        (formula_value Outcome.OutOfRange acts)) operands.now)) }
{
    let mut bytes = Vec::new(alloc);
    for operand in operands {
        let operand = valued(alloc, scope, operand)?;
        let item = item_bytes(alloc, size, operand)?;
        bytes.extend_from_slice(item.as_slice())?;
    }
    Ok(bytes)
}

/// The bytes of a statement at the address that `.` stands for.
pub fn bytes_of(
    alloc: Global,
    scope: &Scope,
    statement: &Statement<Formula>,
) -> Result<Vec<u8>, LineStop>
    ensures { let acts = values scope.now.symbols.now scope.now.address in
        SaysOfBytes result
        (bytes_of scope.now.address
        (statement_valued (formula_value Outcome.OutOfRange acts) statement.now)) }
{
    match statement {
        Statement::Nothing => Ok(Vec::new(alloc)),
        Statement::Fixed(code) => Ok(one_byte(alloc, *code)?),
        Statement::One(single, operand) => {
            let operand = valued(alloc, scope, operand)?;
            single_bytes(alloc, scope.address, *single, operand)
        }
        Statement::Test(field, bits, place) => {
            let bits = valued(alloc, scope, bits)?;
            let place = valued(alloc, scope, place)?;
            test_bytes(alloc, scope.address, *field, bits, place)
        }
        Statement::Items(size, list) => list_bytes(alloc, scope, *size, list.as_slice()),
    }
}
