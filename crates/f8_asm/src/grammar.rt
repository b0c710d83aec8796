// The reader of expressions. It makes formulas as it reads, so that its depth is that of open parentheses.
ghost use Rattle.std.specs.Prelude.{◌≡◌, ◌+◌, ◌≤◌, length, IfOk};
ghost use Rattle.f8_asm.specs.Answers.{SaysOfRead};
ghost use Rattle.f8_asm.specs.Formulas.{formulas};
ghost use Rattle.f8_asm.specs.Grammar.{column_of, mark_operator, operator_at, parenthesis_end, parenthesis_expression};
ghost use Rattle.f8_asm.specs.Grammar.{mark_operand, deeper, behind_prefix, operand, level, expression, ReadsSome};

use crate::faults::{LineStop, form};
use crate::formulas::{Formula, Step};
use crate::values::{Operator, Prefix};
use crate::words::is_reserved;
use asm_text::{Name, Token, TokenKind};
use std::alloc::{AllocError, Global};

/// What was read, and the tokens behind it.
pub type Read<'a> = Result<(Formula, &'a [Token]), LineStop>;

/// How many prefixes and parentheses may be open.
const DEPTH: u32 = 64;

/// The strength of the weakest operator.
const WEAKEST: u8 = 4;

/// Where tokens begin, and nothing at the end.
pub fn column_of(tokens: &[Token]) -> Option<u32>
    ensures { result ≡ column_of tokens.now }
{
    let (first, _) = tokens.split_first()?;
    Some(first.column)
}

/// The operator of a mark, if it has this strength.
fn mark_operator(strength: u8, mark: u8) -> Option<Operator>
    ensures { result ≡ mark_operator strength mark }
{
    match mark {
        b'*' if strength == 1 => Some(Operator::Times),
        b'/' if strength == 1 => Some(Operator::Divide),
        b'+' if strength == 2 => Some(Operator::Plus),
        b'-' if strength == 2 => Some(Operator::Minus),
        b'&' if strength == 3 => Some(Operator::And),
        b'|' if strength == 4 => Some(Operator::Or),
        _ => None,
    }
}

/// The operator that a token is, if it has this strength.
fn operator_at(strength: u8, kind: &TokenKind) -> Option<Operator>
    ensures { result ≡ operator_at strength kind.now }
{
    match kind {
        TokenKind::Mark(mark) => mark_operator(strength, *mark),
        _ => None,
    }
}

/// A name at a column.
fn name_formula(alloc: Global, column: u32, name: &Name) -> Result<Formula, AllocError>
    ensures { IfOk result (λ f. f ≡ formulas.name column name.now) }
{
    Formula::of(alloc, Step::Name(column, name.copy()))
}

/// `)` behind an expression.
fn parenthesis_end(formula: Formula, tokens: &[Token]) -> Read<'_>
    ensures value { SaysOfRead result (parenthesis_end formula tokens.now) }
    ensures consumes { ReadsSome (length tokens.now) result }
{
    let Some((first, behind)) = tokens.split_first() else {
        return Err(LineStop::Fault(form(None)));
    };
    match &first.kind {
        TokenKind::Mark(b')') => Ok((formula, behind)),
        _ => Err(LineStop::Fault(form(Some(first.column)))),
    }
}

/// An expression in parentheses, behind the first.
#[cycle(expression)]
#[tactic(auto, unfolding(crate::specs::Grammar::parenthesis_expression))]
fn parenthesis_expression(alloc: Global, depth: u32, tokens: &[Token]) -> Read<'_>
    ensures value { SaysOfRead result
        (parenthesis_expression formulas (operand formulas depth) tokens.now) }
    ensures consumes { ReadsSome (length tokens.now) result }
{
    let (formula, rest) = level(alloc, depth, WEAKEST, tokens)?;
    parenthesis_end(formula, rest)
}

/// An operand that begins with a mark.
#[cycle(expression)]
#[tactic(auto, unfolding(crate::specs::Grammar::mark_operand))]
fn mark_operand(alloc: Global, depth: u32, column: u32, mark: u8, tokens: &[Token]) -> Read<'_>
    ensures value { SaysOfRead result
        (mark_operand formulas (deeper formulas depth) column mark tokens.now) }
    ensures consumes { ReadsSome (length tokens.now + 1) result }
{
    if mark == b'.' {
        return Ok((Formula::of(alloc, Step::Here)?, tokens));
    }
    if depth == 0 {
        return Err(LineStop::Fault(form(Some(column))));
    }
    match mark {
        b'-' => behind_prefix(alloc, depth - 1, Prefix::Negative, tokens),
        b'<' => behind_prefix(alloc, depth - 1, Prefix::LowByte, tokens),
        b'>' => behind_prefix(alloc, depth - 1, Prefix::HighByte, tokens),
        b'(' => parenthesis_expression(alloc, depth - 1, tokens),
        _ => Err(LineStop::Fault(form(Some(column)))),
    }
}

/// An operand behind a prefix.
#[cycle(expression)]
fn behind_prefix(alloc: Global, depth: u32, prefix: Prefix, tokens: &[Token]) -> Read<'_>
    ensures value { SaysOfRead result
        (behind_prefix formulas prefix (operand formulas depth) tokens.now) }
    ensures consumes { ReadsSome (length tokens.now) result }
{
    let (formula, rest) = operand(alloc, depth, tokens)?;
    Ok((formula.before(prefix)?, rest))
}

/// An operand in which this many more prefixes and parentheses may be open.
#[cycle(expression)]
#[tactic(auto, unfolding(crate::specs::Grammar::operand, crate::specs::Grammar::operand_of))]
fn operand(alloc: Global, depth: u32, tokens: &[Token]) -> Read<'_>
    ensures value { SaysOfRead result (operand formulas depth tokens.now) }
    ensures consumes { ReadsSome (length tokens.now) result }
{
    let Some((first, behind)) = tokens.split_first() else {
        return Err(LineStop::Fault(form(None)));
    };
    match &first.kind {
        TokenKind::Number(number) => Ok((Formula::of(alloc, Step::Number(*number))?, behind)),
        TokenKind::Name(name) if is_reserved(name.as_str().as_bytes()) => {
            Err(LineStop::Fault(form(Some(first.column))))
        }
        TokenKind::Name(name) => Ok((name_formula(alloc, first.column, name)?, behind)),
        TokenKind::Mark(mark) => mark_operand(alloc, depth, first.column, *mark, behind),
    }
}

/// Operators up to this strength between operands.
#[cycle(expression)]
#[tactic(auto, unfolding(crate::specs::Grammar::level))]
fn level(alloc: Global, depth: u32, strength: u8, tokens: &[Token]) -> Read<'_>
    requires { strength ≤ 4 }
    ensures value { SaysOfRead result
        (level formulas (operand formulas depth) strength tokens.now) }
    ensures consumes { ReadsSome (length tokens.now) result }
{
    if strength == 0 {
        return operand(alloc, depth, tokens);
    }
    let (mut left, mut rest) = level(alloc, depth, strength - 1, tokens)?;
    while let Some((first, behind)) = rest.split_first() {
        let Some(operator) = operator_at(strength, &first.kind) else {
            return Ok((left, rest));
        };
        let (right, after) = level(alloc, depth, strength - 1, behind)?;
        left = left.between(operator, right)?;
        rest = after;
    }
    Ok((left, rest))
}

/// An expression at the front of tokens: its formula, and the tokens behind it. The one fault is the first token
/// that fits nothing.
#[tactic(auto, unfolding(crate::specs::Grammar::expression))]
pub fn expression(alloc: Global, tokens: &[Token]) -> Read<'_>
    ensures value { SaysOfRead result (expression formulas tokens.now) }
    ensures consumes { ReadsSome (length tokens.now) result }
{
    level(alloc, DEPTH, WEAKEST, tokens)
}
