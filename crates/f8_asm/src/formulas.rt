// Expressions as they are kept of a line, and their values.
ghost use Rattle.std.specs.Prelude.{◌≡◌, ◌∷◌, ◌++◌, [], IfOk, OnOk};
ghost use Rattle.f8_asm.specs.Evaluation.{name_value, values};
ghost use Rattle.f8_asm.specs.Formulas.{last_on, top_of, stack_after, formula_value};
ghost use Rattle.f8_asm.specs.Names.{value_of};
ghost use Rattle.f8_asm.specs.declared.formulas.Step.TheVariants as step;

use crate::symbols::Symbols;
use crate::values::{Operator, Outcome, Prefix, before, both};
use asm_text::Name;
use std::alloc::{AllocError, Global};
use std::marker::Model;

/// What names and `.` stand for.
#[derive(Clone, Copy)]
pub struct Scope<'a> {
    pub symbols: &'a Symbols<i64>,
    pub address: u32,
}

/// A step to the value of an expression: it puts a value on a stack, or joins the values that are last there.
#[derive(Drop)]
pub enum Step {
    Number(u32),
    /// A name, and the column where it stands.
    Name(u32, Name),
    /// `.`, the address of the line.
    Here,
    /// What stands before the last value.
    Before(Prefix),
    /// What stands between the last two values.
    Between(Operator),
}

/// An expression as the steps to its value. A contract sees their list.
#[derive(Drop)]
pub struct Formula {
    steps: Vec<Step>,
}

impl Model for Formula {
    ghost use Rattle.std.specs.Prelude.{List};
    ghost use Rattle.f8_asm.specs.declared.formulas.Step.{Step};

    ghost Value = { List Step };

    ghost view = { λ f. f.steps.items };
}

impl Formula {
    /// The formula of one step.
    pub fn of(alloc: Global, step: Step) -> Result<Formula, AllocError>
        ensures { IfOk result (λ f. f ≡ step ∷ []) }
    {
        let mut steps = Vec::new(alloc);
        steps.push(step)?;
        Ok(Formula { steps })
    }

    /// A prefix before the expression.
    pub fn before(mut self, prefix: Prefix) -> Result<Formula, AllocError>
        ensures { IfOk result (λ f. f ≡ self ++ step.Before prefix ∷ []) }
    {
        self.steps.push(Step::Before(prefix))?;
        Ok(self)
    }

    /// An operator between two expressions.
    pub fn between(mut self, operator: Operator, mut right: Formula) -> Result<Formula, AllocError>
        ensures { IfOk result (λ f. f ≡ self ++ right ++ step.Between operator ∷ []) }
    {
        right.steps.push(Step::Between(operator))?;
        self.steps.append(&mut right.steps)?;
        Ok(self)
    }

    /// The steps in order.
    pub fn as_slice(&self) -> &[Step]
        ensures { result.now ≡ self.now }
    {
        self.steps.as_slice()
    }
}

/// The value of a name.
fn name_value(scope: &Scope, column: u32, name: &Name) -> Outcome
    ensures { result ≡ name_value column (value_of scope.now.symbols.now name.now) }
{
    match scope.symbols.value_of(name) {
        Some(value) => Outcome::Value(value),
        None => Outcome::Undefined(column),
    }
}

/// Takes one step.
#[tactic(auto, unfolding(crate::specs::Formulas::stack_after))]
fn take(scope: &Scope, stack: &mut Vec<Outcome>, step: &Step) -> Result<(), AllocError>
    ensures { OnOk result (stack.new.items
        ≡ stack_after (values scope.now.symbols.now scope.now.address) step.now stack.old.items) }
{
    match step {
        Step::Number(number) => stack.push(Outcome::Value(i64::from(*number)))?,
        Step::Name(column, name) => stack.push(name_value(scope, *column, name))?,
        Step::Here => stack.push(Outcome::Value(i64::from(scope.address)))?,
        Step::Before(prefix) => {
            if let Some(value) = stack.pop() {
                stack.push(before(*prefix, value))?;
            }
        }
        Step::Between(operator) => {
            if let Some(right) = stack.pop()
                && let Some(left) = stack.pop()
            {
                stack.push(both(*operator, left, right))?;
            }
        }
    }
    Ok(())
}

/// The value that is last on a stack.
fn top_of(stack: &[Outcome]) -> Outcome
    ensures { result ≡ top_of Outcome.OutOfRange (last_on stack.now) }
{
    match stack.last() {
        Some(value) => *value,
        None => Outcome::OutOfRange,
    }
}

/// The value of an expression.
#[tactic(auto, unfolding(crate::specs::Formulas::formula_value))]
pub fn formula_value(alloc: Global, scope: &Scope, formula: &Formula) -> Result<Outcome, AllocError>
    ensures { IfOk result (λ o. o
        ≡ formula_value Outcome.OutOfRange
        (values scope.now.symbols.now scope.now.address) formula.now) }
{
    let mut stack = Vec::new(alloc);
    let steps = formula.as_slice();
    for step in steps {
        take(scope, &mut stack, step)?;
    }
    Ok(top_of(stack.as_slice()))
}
