// The bytes of a module's statements, and what linking puts into them.
ghost use Rattle.std.specs.Prelude.{◌≡◌, ◌≤◌, ◌+◌, ◌*◌, ◌∷◌, [], length, map, IfOk};
ghost use Rattle.text_lines.specs.ReadErrors.{Says};
ghost use Rattle.f8_spec.specs.Instructions.{InRange};
ghost use Rattle.f8_asm.specs.Bytes.{word_bytes};
ghost use Rattle.f8_asm.specs.Statements.{item_size, single_size, operand_valued, statement_size, statement_valued};
ghost use Rattle.f8_link.specs.Evaluation.{formula_found};
ghost use Rattle.f8_link.specs.Pieces.{whole, open_at, behind, joined, kind_of, no_value, constant_of};
ghost use Rattle.f8_link.specs.Pieces.{constant_operand, number_of, field_of, byte_of, word_of, displaced, branch_of};
ghost use Rattle.f8_link.specs.Pieces.{single_piece, item_piece, list_piece, piece_of};

use crate::answers::ModCause;
use crate::faults::{ModuleLineFault, ModuleLineStop, fault_at, line_fault_of};
use crate::objects::{Fixup, FixupKind};
use crate::scope::{Scope, operand_found};
use crate::values::{Base, Found, Half, Value};
use f8_asm::{
    AsmCause, Field, Formula, ItemSize, Operand, Outcome, Single, Statement, byte, octet,
    unsigned_value, with_field,
};
use f8_ops::encode;
use f8_spec::Op;
use std::alloc::{AllocError, Global};
use std::marker::Model;

/// Bytes of a module, and what linking puts into them.
#[derive(Drop)]
pub struct Piece {
    bytes: Vec<u8>,
    fixups: Vec<Fixup>,
}

impl Model for Piece {
    ghost use Rattle.f8_link.specs.Pieces.{Piece};

    ghost Value = { Piece };

    ghost view = { λ p. record { bytes = p.bytes.items; fixups = p.fixups.items } };
}

impl Piece {
    ghost use Rattle.std.specs.Prelude.{◌≡◌, ◌∷◌, [], IfOk, OnOk};
    ghost use Rattle.f8_link.specs.Pieces.{whole, open_at, behind, joined};

    /// No byte.
    pub fn empty(alloc: Global) -> Piece
        ensures { result ≡ whole [] }
    {
        Piece {
            bytes: Vec::new(alloc),
            fixups: Vec::new(alloc),
        }
    }

    /// Bytes that are known.
    fn whole(alloc: Global, bytes: &[u8]) -> Result<Piece, AllocError>
        ensures { IfOk result (λ p. p ≡ whole bytes.now) }
    {
        let mut known = Vec::new(alloc);
        known.extend_from_slice(bytes)?;
        Ok(Piece {
            bytes: known,
            fixups: Vec::new(alloc),
        })
    }

    /// Bytes into which linking puts one thing.
    fn open_at(alloc: Global, bytes: &[u8], fixup: Fixup) -> Result<Piece, AllocError>
        ensures { IfOk result
            (λ p. p ≡ open_at bytes.now fixup.offset fixup.kind fixup.base fixup.k) }
    {
        let mut piece = Piece::whole(alloc, bytes)?;
        piece.fixups.push(fixup)?;
        Ok(piece)
    }

    /// An opcode before the bytes.
    fn behind(mut self, code: u8) -> Result<Piece, AllocError>
        ensures { IfOk result (λ p. p ≡ behind code self) }
    {
        self.bytes.insert(0, code)?;
        Ok(self)
    }

    /// Takes the bytes that follow.
    pub fn join(&mut self, mut other: Piece) -> Result<(), AllocError>
        ensures { OnOk result (self.new ≡ joined self.old other) }
    {
        self.bytes.append(&mut other.bytes)?;
        self.fixups.append(&mut other.fixups)?;
        Ok(())
    }

    /// The bytes.
    pub fn bytes(&self) -> &[u8]
        ensures { result.now ≡ self.now.bytes }
    {
        self.bytes.as_slice()
    }

    /// The bytes and what linking puts into them.
    pub fn into_parts(self) -> (Vec<u8>, Vec<Fixup>)
        ensures bytes { result.0.items ≡ self.bytes }
        ensures fixups { result.1.items ≡ self.fixups }
    {
        (self.bytes, self.fixups)
    }
}

/// What linking makes of a half.
fn kind_of(half: Half) -> FixupKind
    ensures { result ≡ kind_of half }
{
    match half {
        Half::Low => FixupKind::Low,
        Half::High => FixupKind::High,
    }
}

/// Why an operand has no value that may stand in its place.
fn no_value(column: u32, found: Found) -> ModuleLineFault
    ensures { result ≡ no_value column found }
{
    match found {
        Found::OutOfRange => fault_at(column, ModCause::Asm(AsmCause::Range)),
        Found::Undefined(at) => fault_at(at, ModCause::Asm(AsmCause::Undefined)),
        _ => fault_at(column, ModCause::Shape),
    }
}

/// A value that may not be placed.
pub fn constant_of(operand: Operand<Found>) -> Result<i64, ModuleLineFault>
    ensures { result ≡ constant_of operand }
{
    match operand.value {
        Found::Value(Value::Constant(value)) => Ok(value),
        other => Err(no_value(operand.column, other)),
    }
}

/// A constant for the assembler.
fn constant_operand(column: u32, value: i64) -> Operand<Outcome>
    ensures { result ≡ constant_operand column value }
{
    Operand {
        column,
        value: Outcome::Value(value),
    }
}

/// A number that may not be placed, from 0 to `last`.
fn number_of(last: u16, operand: Operand<Found>) -> Result<u16, ModuleLineFault>
    ensures value { result ≡ number_of last operand }
    ensures within { IfOk result (λ n. n ≤ last) }
{
    let value = constant_of(operand)?;
    unsigned_value(last, constant_operand(operand.column, value)).map_err(line_fault_of)
}

/// The instruction with a number in its field.
fn field_of(field: Field, operand: Operand<Found>) -> Result<Op, ModuleLineFault>
    ensures value { result ≡ field_of field operand }
    ensures in_range { IfOk result InRange }
{
    let value = constant_of(operand)?;
    with_field(field, constant_operand(operand.column, value)).map_err(line_fault_of)
}

/// A byte at an offset.
fn byte_of(alloc: Global, offset: u32, operand: Operand<Found>) -> Result<Piece, ModuleLineStop>
    ensures { Says result (byte_of offset operand) }
{
    match operand.value {
        Found::Value(Value::Constant(value)) => {
            let byte = byte(constant_operand(operand.column, value)).map_err(line_fault_of)?;
            Ok(Piece::whole(alloc, &[byte])?)
        }
        Found::Value(Value::Placed(base, k)) => Ok(Piece::open_at(
            alloc,
            &[0],
            Fixup {
                offset,
                kind: FixupKind::Byte,
                base: Some(base),
                k,
            },
        )?),
        Found::Half(half, base, k) => Ok(Piece::open_at(
            alloc,
            &[0],
            Fixup {
                offset,
                kind: kind_of(half),
                base: Some(base),
                k,
            },
        )?),
        other => Err(ModuleLineStop::Fault(no_value(operand.column, other))),
    }
}

/// A word at an offset, high byte first. A half is its second byte.
fn word_of(alloc: Global, offset: u32, operand: Operand<Found>) -> Result<Piece, ModuleLineStop>
    requires { offset ≤ 65536 }
    ensures { Says result (word_of offset operand) }
{
    match operand.value {
        Found::Value(Value::Constant(value)) => {
            let word = unsigned_value(u16::MAX, constant_operand(operand.column, value)).map_err(
                line_fault_of,
            )?;
            Ok(Piece::whole(alloc, &[(word / 256) as u8, (word % 256) as u8])?)
        }
        Found::Value(Value::Placed(base, k)) => Ok(Piece::open_at(
            alloc,
            &[0, 0],
            Fixup {
                offset,
                kind: FixupKind::Word,
                base: Some(base),
                k,
            },
        )?),
        Found::Half(half, base, k) => Ok(Piece::open_at(
            alloc,
            &[0, 0],
            Fixup {
                offset: offset + 1,
                kind: kind_of(half),
                base: Some(base),
                k,
            },
        )?),
        other => Err(ModuleLineStop::Fault(no_value(operand.column, other))),
    }
}

/// The displacement at an offset to a place of the module itself: -128 to 127.
fn displaced(column: u32, offset: u32, place: i64) -> Result<u8, ModuleLineFault>
    ensures { result ≡ displaced column offset place }
{
    let distance = place.checked_sub(i64::from(offset));
    match distance.and_then(|distance| octet(127, distance)) {
        Some(byte) => Ok(byte),
        None => Err(fault_at(column, ModCause::Asm(AsmCause::BranchRange))),
    }
}

/// The displacement byte of a branch, at an offset.
fn branch_of(alloc: Global, offset: u32, operand: Operand<Found>) -> Result<Piece, ModuleLineStop>
    ensures { Says result (branch_of offset operand) }
{
    let (base, k) = match operand.value {
        Found::Value(Value::Constant(value)) => (None, value),
        Found::Value(Value::Placed(Base::Module, k)) => {
            let byte = displaced(operand.column, offset, k)?;
            return Ok(Piece::whole(alloc, &[byte])?);
        }
        Found::Value(Value::Placed(base, k)) => (Some(base), k),
        other => return Err(ModuleLineStop::Fault(no_value(operand.column, other))),
    };
    Ok(Piece::open_at(
        alloc,
        &[0],
        Fixup {
            offset,
            kind: FixupKind::Branch,
            base,
            k,
        },
    )?)
}

/// A statement with one operand.
fn single_piece(
    alloc: Global,
    offset: u32,
    single: Single,
    operand: Operand<Found>,
) -> Result<Piece, ModuleLineStop>
    requires { offset + single_size single ≤ 65536 }
    ensures { Says result (single_piece offset single operand) }
{
    match single {
        Single::Byte(code) => Ok(byte_of(alloc, offset + 1, operand)?.behind(code)?),
        Single::Port(code) => {
            let port = number_of(255, operand)?;
            Ok(Piece::whole(alloc, &[code, port as u8])?)
        }
        Single::Word(code) => Ok(word_of(alloc, offset + 1, operand)?.behind(code)?),
        Single::Branch(code) => Ok(branch_of(alloc, offset + 1, operand)?.behind(code)?),
        Single::Small(field) => {
            let op = field_of(field, operand)?;
            Ok(Piece::whole(alloc, &[encode(op)])?)
        }
        Single::Org | Single::Equ => Ok(Piece::empty(alloc)),
    }
}

/// A branch on bits.
fn test_piece(
    alloc: Global,
    offset: u32,
    field: Field,
    bits: Operand<Found>,
    place: Operand<Found>,
) -> Result<Piece, ModuleLineStop>
    requires { offset ≤ 65535 }
    ensures { Says result (piece_of offset (Statement.Test field bits place)) }
{
    let op = field_of(field, bits)?;
    Ok(branch_of(alloc, offset + 1, place)?.behind(encode(op))?)
}

/// An item of a list.
fn item_piece(
    alloc: Global,
    offset: u32,
    size: ItemSize,
    operand: Operand<Found>,
) -> Result<Piece, ModuleLineStop>
    requires { offset ≤ 65536 }
    ensures { Says result (item_piece offset size operand) }
{
    match size {
        ItemSize::Byte => byte_of(alloc, offset, operand),
        ItemSize::Word => word_of(alloc, offset, operand),
    }
}

/// The items of a list, which end by offset 65,536.
fn list_piece(
    alloc: Global,
    scope: &Scope,
    size: ItemSize,
    operands: &[Operand<Formula>],
) -> Result<Piece, ModuleLineStop>
    requires { scope.now.offset + item_size size * length operands.now ≤ 65536 }
    ensures { let found = formula_found scope.now.names.now scope.now.imports.now scope.now.offset in
        Says result (list_piece scope.now.offset size (map (operand_valued found) operands.now)) }
{
    let mut piece = Piece::empty(alloc);
    for operand in operands {
        let operand = operand_found(alloc, scope, operand)?;
        let offset = scope.offset + piece.bytes().len() as u32;
        piece.join(item_piece(alloc, offset, size, operand)?)?;
    }
    Ok(piece)
}

/// The bytes of a statement at the offset that `.` stands for.
pub fn piece_of(
    alloc: Global,
    scope: &Scope,
    statement: &Statement<Formula>,
) -> Result<Piece, ModuleLineStop>
    requires { scope.now.offset + statement_size statement.now ≤ 65536 }
    ensures { let found = formula_found scope.now.names.now scope.now.imports.now scope.now.offset in
        Says result (piece_of scope.now.offset (statement_valued found statement.now)) }
{
    match statement {
        Statement::Nothing => Ok(Piece::empty(alloc)),
        Statement::Fixed(code) => Ok(Piece::whole(alloc, &[*code])?),
        Statement::One(single, operand) => {
            let operand = operand_found(alloc, scope, operand)?;
            single_piece(alloc, scope.offset, *single, operand)
        }
        Statement::Test(field, bits, place) => {
            let bits = operand_found(alloc, scope, bits)?;
            let place = operand_found(alloc, scope, place)?;
            test_piece(alloc, scope.offset, *field, bits, place)
        }
        Statement::Items(size, list) => list_piece(alloc, scope, *size, list.as_slice()),
    }
}
