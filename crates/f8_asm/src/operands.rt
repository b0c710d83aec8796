// What is read of a line: operands and statements.
ghost use Rattle.std.specs.Prelude.{◌≡◌, ◌≤◌, IfOk};
ghost use Rattle.f8_asm.specs.Evaluation.{values};
ghost use Rattle.f8_asm.specs.Formulas.{formula_value};
ghost use Rattle.f8_asm.specs.Statements.{item_size, single_size, statement_size, operand_valued, statement_valued};
ghost use Rattle.f8_asm.specs.Statements.{single_effect, effect_of};

use crate::fields::Field;
use crate::formulas::{Formula, Scope, formula_value};
use crate::values::Outcome;
use crate::words::{ItemSize, Single};
use std::alloc::{AllocError, Global};
use std::marker::Model;

/// An operand: the column of its first token, and its value, or the formula that gives it.
#[derive(Clone, Copy)]
pub struct Operand<E> {
    pub column: u32,
    pub value: E,
}

/// Operands in order, as they were read. A contract sees that list.
#[derive(Drop)]
pub struct OperandList<E: Drop> {
    items: Vec<Operand<E>>,
}

impl<E: Drop> Model for OperandList<E> {
    ghost use Rattle.std.specs.Prelude.{List};
    ghost use Rattle.f8_asm.specs.declared.operands.Operand.{Operand};

    ghost Value = { List (Operand E) };

    ghost view = { λ l. l.items.items };
}

impl<E: Drop> OperandList<E> {
    /// The list of these operands.
    pub fn from_vec(items: Vec<Operand<E>>) -> OperandList<E>
        ensures { result ≡ items.items }
    {
        OperandList { items }
    }

    /// The operands in order.
    pub fn as_slice(&self) -> &[Operand<E>]
        ensures { result.now ≡ self.now }
    {
        self.items.as_slice()
    }
}

/// The statement of a line.
#[derive(Drop)]
pub enum Statement<E: Drop> {
    Nothing,
    /// An opcode with nothing open.
    Fixed(u8),
    /// One operand.
    One(Single, Operand<E>),
    /// A branch on bits: the bits, and where it leads.
    Test(Field, Operand<E>, Operand<E>),
    /// Items of a list.
    Items(ItemSize, OperandList<E>),
}

/// What a statement does in the second pass.
#[derive(Clone, Copy)]
pub enum Effect {
    /// The label has this value.
    Names(Operand<Outcome>),
    /// This is the next address.
    Moves(Operand<Outcome>),
    /// So many bytes stand here.
    Fills(usize),
}

/// The operand with its value.
pub fn valued(
    alloc: Global,
    scope: &Scope,
    operand: &Operand<Formula>,
) -> Result<Operand<Outcome>, AllocError>
    ensures { let acts = values scope.now.symbols.now scope.now.address in
        IfOk result (λ o. o ≡ operand_valued (formula_value Outcome.OutOfRange acts) operand.now) }
{
    let value = formula_value(alloc, scope, &operand.value)?;
    Ok(Operand {
        column: operand.column,
        value,
    })
}

/// The bytes that an item takes.
fn item_size(size: ItemSize) -> usize
    ensures value { result ≡ item_size size }
    ensures few { result ≤ 2 }
{
    match size {
        ItemSize::Byte => 1,
        ItemSize::Word => 2,
    }
}

/// The bytes that a statement with one operand takes.
fn single_size(single: Single) -> usize
    ensures { result ≡ single_size single }
{
    match single {
        Single::Byte(_) | Single::Port(_) | Single::Branch(_) => 2,
        Single::Word(_) => 3,
        Single::Small(_) => 1,
        Single::Org | Single::Equ => 0,
    }
}

/// The bytes that a statement takes.
pub fn statement_size<E: Drop>(statement: &Statement<E>) -> usize
    ensures { result ≡ statement_size statement.now }
{
    match statement {
        Statement::Nothing => 0,
        Statement::Fixed(_) => 1,
        Statement::One(single, _) => single_size(*single),
        Statement::Test(_, _, _) => 2,
        Statement::Items(size, list) => {
            let items = list.as_slice();
            item_size(*size) * items.len()
        }
    }
}

/// What a statement with one operand does.
fn single_effect(
    alloc: Global,
    scope: &Scope,
    single: Single,
    operand: &Operand<Formula>,
) -> Result<Effect, AllocError>
    ensures { let acts = values scope.now.symbols.now scope.now.address in
        IfOk result (λ e. e ≡ single_effect single (operand_valued
        (formula_value Outcome.OutOfRange acts) operand.now)) }
{
    match single {
        Single::Equ => Ok(Effect::Names(valued(alloc, scope, operand)?)),
        Single::Org => Ok(Effect::Moves(valued(alloc, scope, operand)?)),
        other => Ok(Effect::Fills(single_size(other))),
    }
}

/// What a statement does.
pub fn effect_of(
    alloc: Global,
    scope: &Scope,
    statement: &Statement<Formula>,
) -> Result<Effect, AllocError>
    ensures { let acts = values scope.now.symbols.now scope.now.address in
        IfOk result (λ e. e ≡ effect_of
        (statement_valued (formula_value Outcome.OutOfRange acts) statement.now)) }
{
    match statement {
        Statement::One(single, operand) => single_effect(alloc, scope, *single, operand),
        other => Ok(Effect::Fills(statement_size(other))),
    }
}
