// The reader of a line's label and statement.
ghost use Rattle.std.specs.Prelude.{◌≡◌, ◌<◌, ◌≤◌, length, drop, IfSome, IfOk, option_copied};
ghost use Rattle.f8_spec.specs.Instructions.{InRange};
ghost use Rattle.f8_asm.specs.Answers.{SaysOfRead};
ghost use Rattle.text_lines.specs.ReadErrors.{Says};
ghost use Rattle.f8_asm.specs.Fields.{limit_of};
ghost use Rattle.f8_asm.specs.Formulas.{formulas};
ghost use Rattle.f8_asm.specs.Grammar.{ReadsSome};
ghost use Rattle.f8_asm.specs.Statements.{operand_at, comma, seen_rest, done, register_at, instruction_of, one, two};
ghost use Rattle.f8_asm.specs.Statements.{register_number_at, register_operand, accumulator, load_from, load, items};
ghost use Rattle.f8_asm.specs.Statements.{item_list, operands, wants_label, no_mnemonic, statement_of, statement};
ghost use Rattle.f8_asm.specs.Statements.{begins_colon, label_of, behind_label};
ghost use Rattle.f8_asm.specs.Words.{HasRoom, shape_of};

use crate::answers::AsmCause;
use crate::faults::{LineFault, LineStop, form};
use crate::fields::{Field, op_with};
use crate::formulas::Formula;
use crate::grammar::{column_of, expression};
use crate::operands::{Operand, OperandList, Statement};
use crate::registers::{Register, is_accumulator, pair_op, register_number, register_of};
use crate::words::{ItemSize, Shape, Single, is_reserved, shape_of};
use asm_text::{Name, Token, TokenKind};
use f8_ops::encode;
use f8_spec::Op;
use std::alloc::Global;

/// An expression with the column of its first token, and the tokens behind it.
fn operand_at(alloc: Global, tokens: &[Token]) -> Result<(Operand<Formula>, &[Token]), LineStop>
    ensures value { SaysOfRead result (operand_at formulas tokens.now) }
    ensures consumes { ReadsSome (length tokens.now) result }
{
    let Some((first, _)) = tokens.split_first() else {
        return Err(LineStop::Fault(form(None)));
    };
    let (value, behind) = expression(alloc, tokens)?;
    let column = first.column;
    Ok((Operand { column, value }, behind))
}

/// The tokens behind a comma.
pub fn comma(tokens: &[Token]) -> Result<&[Token], LineFault>
    ensures value { seen_rest result ≡ comma tokens.now }
    ensures consumes { IfOk result (λ rest. length rest.now < length tokens.now) }
{
    let Some((first, behind)) = tokens.split_first() else {
        return Err(form(None));
    };
    match &first.kind {
        TokenKind::Mark(b',') => Ok(behind),
        _ => Err(form(Some(first.column))),
    }
}

/// A statement with no token behind it.
fn done(statement: Statement<Formula>, tokens: &[Token]) -> Result<Statement<Formula>, LineFault>
    ensures { result ≡ done statement tokens.now }
{
    match tokens.split_first() {
        None => Ok(statement),
        Some((first, _)) => Err(form(Some(first.column))),
    }
}

/// The tokens behind the first.
fn behind(tokens: &[Token]) -> &[Token]
    ensures { result.now ≡ drop 1 tokens.now }
{
    match tokens.split_first() {
        Some((_, rest)) => rest,
        None => tokens,
    }
}

/// The register that the first token names.
fn register_at(tokens: &[Token]) -> Option<Register>
    ensures { result ≡ register_at tokens.now }
{
    let (first, _) = tokens.split_first()?;
    match &first.kind {
        TokenKind::Name(name) => register_of(name.as_str().as_bytes()),
        _ => None,
    }
}

/// An instruction, if there is one, behind whose first token nothing may stand.
fn instruction_of(op: Option<Op>, tokens: &[Token]) -> Result<Statement<Formula>, LineFault>
    requires { IfSome op InRange }
    ensures { result ≡ instruction_of op tokens.now }
{
    match op {
        Some(op) => done(Statement::Fixed(encode(op)), behind(tokens)),
        None => Err(form(column_of(tokens))),
    }
}

/// An answer that needs no memory.
fn without_memory(
    answer: Result<Statement<Formula>, LineFault>,
) -> Result<Statement<Formula>, LineStop>
    ensures { Says result answer }
{
    Ok(answer?)
}

/// One expression.
fn one(alloc: Global, single: Single, tokens: &[Token]) -> Result<Statement<Formula>, LineStop>
    ensures { Says result (one formulas single tokens.now) }
{
    let (operand, rest) = operand_at(alloc, tokens)?;
    without_memory(done(Statement::One(single, operand), rest))
}

/// Two expressions.
fn two(alloc: Global, field: Field, tokens: &[Token]) -> Result<Statement<Formula>, LineStop>
    ensures { Says result (two formulas field tokens.now) }
{
    let (bits, rest) = operand_at(alloc, tokens)?;
    let rest = comma(rest)?;
    let (place, rest) = operand_at(alloc, rest)?;
    without_memory(done(Statement::Test(field, bits, place), rest))
}

/// The register by number that the first token names.
fn register_number_at(tokens: &[Token]) -> Option<u8>
    ensures value { result ≡ register_number_at tokens.now }
    ensures below { IfSome result (λ r. r < 15) }
{
    register_number(register_at(tokens)?)
}

/// A register, by a word or by an expression.
fn register_operand(
    alloc: Global,
    field: Field,
    tokens: &[Token],
) -> Result<Statement<Formula>, LineStop>
    requires { 15 ≤ limit_of field }
    ensures { Says result
        (register_operand formulas field tokens.now (register_number_at tokens.now)) }
{
    match register_number_at(tokens) {
        Some(number) => without_memory(instruction_of(op_with(field, number), tokens)),
        None => one(alloc, Single::Small(field), tokens),
    }
}

/// The tokens behind the word `A`.
fn accumulator(tokens: &[Token]) -> Result<&[Token], LineFault>
    ensures { seen_rest result ≡ accumulator tokens.now }
{
    match register_at(tokens) {
        Some(register) if is_accumulator(register) => Ok(behind(tokens)),
        _ => Err(form(column_of(tokens))),
    }
}

/// What `LR` moves into a register.
fn load_from(alloc: Global, to: Register, tokens: &[Token]) -> Result<Statement<Formula>, LineStop>
    ensures { Says result (load_from formulas to tokens.now (register_at tokens.now)) }
{
    match register_at(tokens) {
        Some(from) => without_memory(instruction_of(pair_op(to, from), tokens)),
        None if is_accumulator(to) => one(alloc, Single::Small(Field::LrAR), tokens),
        None => Err(LineStop::Fault(form(column_of(tokens)))),
    }
}

/// `LR` from the accumulator into a register that an expression gives.
fn store(alloc: Global, tokens: &[Token]) -> Result<Statement<Formula>, LineStop>
    ensures { Says result (load formulas tokens.now None) }
{
    let (operand, rest) = operand_at(alloc, tokens)?;
    let rest = comma(rest)?;
    let rest = accumulator(rest)?;
    without_memory(done(Statement::One(Single::Small(Field::LrRA), operand), rest))
}

/// `LR` between two registers.
fn load(alloc: Global, tokens: &[Token]) -> Result<Statement<Formula>, LineStop>
    ensures { Says result (load formulas tokens.now (register_at tokens.now)) }
{
    match register_at(tokens) {
        Some(to) => load_from(alloc, to, comma(behind(tokens))?),
        None => store(alloc, tokens),
    }
}

/// Expressions with commas between them, at least one.
fn items(alloc: Global, tokens: &[Token]) -> Result<OperandList<Formula>, LineStop>
    ensures { Says result (items formulas (length tokens.now) tokens.now) }
{
    let mut found = Vec::new(alloc);
    let mut rest = tokens;
    loop {
        let (operand, behind) = operand_at(alloc, rest)?;
        found.push(operand)?;
        if behind.is_empty() {
            return Ok(OperandList::from_vec(found));
        }
        rest = comma(behind)?;
    }
}

/// A list of items.
fn item_list(
    alloc: Global,
    size: ItemSize,
    tokens: &[Token],
) -> Result<Statement<Formula>, LineStop>
    ensures { Says result (item_list formulas size tokens.now) }
{
    let list = items(alloc, tokens)?;
    Ok(Statement::Items(size, list))
}

/// What goes behind a mnemonic or directive.
#[tactic(auto, unfolding(crate::specs::Statements::operands))]
fn operands(alloc: Global, shape: Shape, tokens: &[Token]) -> Result<Statement<Formula>, LineStop>
    requires { HasRoom shape }
    ensures { Says result (operands formulas shape tokens.now) }
{
    match shape {
        Shape::Plain(code) => without_memory(done(Statement::Fixed(code), tokens)),
        Shape::One(single) => one(alloc, single, tokens),
        Shape::Register(field) => register_operand(alloc, field, tokens),
        Shape::Test(field) => two(alloc, field, tokens),
        Shape::Load => load(alloc, tokens),
        Shape::Items(size) => item_list(alloc, size, tokens),
    }
}

/// Whether a mnemonic or directive wants a label before it.
fn wants_label(shape: Shape) -> bool
    ensures { result ≡ wants_label shape }
{
    matches!(shape, Shape::One(Single::Equ))
}

/// A name in a mnemonic's place.
fn no_mnemonic(column: u32, name: &Name) -> LineFault
    ensures { result ≡ no_mnemonic column name.now }
{
    if register_of(name.as_str().as_bytes()).is_some() {
        return form(Some(column));
    }
    LineFault {
        column: Some(column),
        cause: AsmCause::Unknown,
    }
}

/// The statement that a name begins.
fn statement_of(
    alloc: Global,
    labelled: bool,
    column: u32,
    name: &Name,
    tokens: &[Token],
) -> Result<Statement<Formula>, LineStop>
    ensures { Says result
        (statement_of formulas labelled column name.now tokens.now (shape_of name.now)) }
{
    match shape_of(name.as_str().as_bytes()) {
        Some(shape) if wants_label(shape) && !labelled => Err(LineStop::Fault(form(Some(column)))),
        Some(shape) => operands(alloc, shape, tokens),
        None => Err(LineStop::Fault(no_mnemonic(column, name))),
    }
}

/// The statement of a line behind its label.
#[tactic(auto, unfolding(crate::specs::Statements::statement))]
pub fn statement(
    alloc: Global,
    labelled: bool,
    tokens: &[Token],
) -> Result<Statement<Formula>, LineStop>
    ensures { Says result (statement formulas labelled tokens.now) }
{
    let Some((first, behind)) = tokens.split_first() else {
        return Ok(Statement::Nothing);
    };
    match &first.kind {
        TokenKind::Name(name) => statement_of(alloc, labelled, first.column, name, behind),
        _ => Err(LineStop::Fault(form(Some(first.column)))),
    }
}

/// Whether a colon stands first.
fn begins_colon(tokens: &[Token]) -> bool
    ensures { result ≡ begins_colon tokens.now }
{
    match tokens.split_first() {
        Some((first, _)) => matches!(&first.kind, TokenKind::Mark(b':')),
        None => false,
    }
}

/// The name that a line begins with, if a colon follows.
#[tactic(auto, unfolding(crate::specs::Statements::label_of))]
pub fn label_of(tokens: &[Token]) -> Option<&Name>
    ensures { option_copied result ≡ label_of tokens.now }
{
    let (first, behind) = tokens.split_first()?;
    match &first.kind {
        TokenKind::Name(name) if begins_colon(behind) && !is_reserved(name.as_str().as_bytes()) => {
            Some(name)
        }
        _ => None,
    }
}

/// A line's tokens behind its label and colon.
pub fn behind_label(tokens: &[Token]) -> &[Token]
    ensures { result.now ≡ behind_label tokens.now }
{
    match label_of(tokens) {
        Some(_) => behind(behind(tokens)),
        None => tokens,
    }
}
