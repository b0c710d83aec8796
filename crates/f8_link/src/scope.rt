// What the names of a module stand for, and the values of its expressions.
ghost use Rattle.std.specs.Prelude.{◌≡◌, ◌∷◌, [], IfOk, OnOk};
ghost use Rattle.f8_asm.specs.Formulas.{last_on, top_of, stack_after, formula_value};
ghost use Rattle.f8_asm.specs.Names.{value_of};
ghost use Rattle.f8_asm.specs.Statements.{operand_valued};
ghost use Rattle.f8_link.specs.Evaluation.{name_found, placed_values, formula_found, names_import};

use crate::values::{Base, Found, Named, Value, before, both, near, used};
use asm_text::Name;
use f8_asm::{Formula, Operand, Step, Symbols};
use std::alloc::{AllocError, Global};

/// The names of a module so far, those that it imports with their numbers, and the offset that `.` stands for.
#[derive(Clone, Copy)]
pub struct Scope<'a> {
    pub names: &'a Symbols<Named>,
    pub imports: &'a Symbols<usize>,
    pub offset: u32,
}

/// What a name stands for: the module's own, or else an import.
fn name_found(scope: &Scope, column: u32, name: &Name) -> Found
    ensures { result ≡ name_found column (value_of scope.now.names.now name.now)
        (value_of scope.now.imports.now name.now) }
{
    match scope.names.value_of(name) {
        Some(named) => used(named),
        None => match scope.imports.value_of(name) {
            Some(number) => Found::Value(Value::Placed(Base::Import(number), 0)),
            None => Found::Undefined(column),
        },
    }
}

/// Takes one step.
#[tactic(auto, unfolding(f8_asm::specs::Formulas::stack_after))]
fn take(scope: &Scope, stack: &mut Vec<Found>, step: &Step) -> Result<(), AllocError>
    ensures { OnOk result (stack.new.items ≡ stack_after
        (placed_values scope.now.names.now scope.now.imports.now scope.now.offset) step.now stack.old.items) }
{
    match step {
        Step::Number(number) => stack.push(Found::Value(Value::Constant(i64::from(*number))))?,
        Step::Name(column, name) => stack.push(name_found(scope, *column, name))?,
        Step::Here => stack.push(near(Base::Module, i64::from(scope.offset)))?,
        Step::Before(prefix) => {
            if let Some(value) = stack.pop() {
                stack.push(before(*prefix, value))?;
            }
        }
        Step::Between(operator) => {
            if let Some(right) = stack.pop()
                && let Some(left) = stack.pop()
            {
                stack.push(both(*operator, left, right))?;
            }
        }
    }
    Ok(())
}

/// The value that is last on a stack.
fn top_of(stack: &[Found]) -> Found
    ensures { result ≡ top_of Found.OutOfRange (last_on stack.now) }
{
    match stack.last() {
        Some(value) => *value,
        None => Found::OutOfRange,
    }
}

/// What an expression comes to.
#[tactic(auto, unfolding(f8_asm::specs::Formulas::formula_value))]
fn formula_found(alloc: Global, scope: &Scope, formula: &Formula) -> Result<Found, AllocError>
    ensures { IfOk result (λ f. f
        ≡ formula_found scope.now.names.now scope.now.imports.now scope.now.offset formula.now) }
{
    let mut stack = Vec::new(alloc);
    let steps = formula.as_slice();
    for step in steps {
        take(scope, &mut stack, step)?;
    }
    Ok(top_of(stack.as_slice()))
}

/// An operand with what it comes to.
pub fn operand_found(
    alloc: Global,
    scope: &Scope,
    operand: &Operand<Formula>,
) -> Result<Operand<Found>, AllocError>
    ensures { IfOk result (λ o. o ≡ operand_valued
        (formula_found scope.now.names.now scope.now.imports.now scope.now.offset) operand.now) }
{
    let value = formula_found(alloc, scope, &operand.value)?;
    Ok(Operand {
        column: operand.column,
        value,
    })
}

/// Whether a step names an import.
fn step_names_import(imports: &Symbols<usize>, step: &Step) -> bool
    ensures { result ≡ names_import imports.now (step.now ∷ []) }
{
    match step {
        Step::Name(_, name) => imports.value_of(name).is_some(),
        _ => false,
    }
}

/// Whether an import is named anywhere in an expression.
pub fn names_import(imports: &Symbols<usize>, formula: &Formula) -> bool
    ensures { result ≡ names_import imports.now formula.now }
{
    for step in formula.as_slice() {
        if step_names_import(imports, step) {
            return true;
        }
    }
    false
}
