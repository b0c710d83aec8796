// The values of a module's expressions, and what operators and prefixes make of them.
ghost use Rattle.std.specs.Prelude.{◌≡◌, IfSome, IfNone, ◌+ℤ◌, ◌-ℤ◌};
ghost use Rattle.f8_link.specs.Values.{same_base, near, used, constant_found, placed_moved, moved_placed};
ghost use Rattle.f8_link.specs.Values.{placed_joined, values_joined, both, placed_before, value_before, before};

use f8_asm::{Operator, Outcome, Prefix, operator_value, prefix_value};

/// What a placed value is counted from. Linking gives it a value.
#[derive(Clone, Copy, Debug, PartialEq, Eq)]
pub enum Base {
    /// The address where the module begins.
    Module,
    /// The value of an import, by its number among the module's imports, counted from 0.
    Import(usize),
}

/// What a name of a module stands for.
#[derive(Clone, Copy, Debug, PartialEq, Eq)]
pub enum Named {
    /// The value that `EQU` gives.
    Constant(i64),
    /// Where a label stands, counted in bytes from the module's first: 0 to 65,536.
    Offset(u32),
}

/// The value of an expression.
#[derive(Clone, Copy, Debug, PartialEq, Eq)]
pub enum Value {
    Constant(i64),
    /// So far from a base: -65,535 to 65,535.
    Placed(Base, i64),
}

/// A half of an address.
#[derive(Clone, Copy, Debug, PartialEq, Eq)]
pub enum Half {
    Low,
    High,
}

/// What an expression of a module comes to.
#[derive(Clone, Copy, Debug, PartialEq, Eq)]
pub enum Found {
    Value(Value),
    /// The low or the high byte of a placed value. Nothing can be made of it.
    Half(Half, Base, i64),
    /// A value, also one in between, is too large or too small, or too far from its base.
    OutOfRange,
    /// What is made of a placed value is neither placed nor a constant.
    Shapeless,
    /// The first name that stands for nothing is at this column.
    Undefined(u32),
}

/// How far from its base a placed value may lie, before and behind it.
const FARTHEST: i64 = 65_535;

/// Whether two bases are the same.
fn same_base(one: Base, other: Base) -> bool
    ensures { result ≡ same_base one other }
{
    match one {
        Base::Module => matches!(other, Base::Module),
        Base::Import(one) => match other {
            Base::Module => false,
            Base::Import(other) => one == other,
        },
    }
}

/// A value so far from a base, if it isn't too far.
pub fn near(base: Base, distance: i64) -> Found
    ensures { result ≡ near base distance }
{
    if -FARTHEST <= distance && distance <= FARTHEST {
        Found::Value(Value::Placed(base, distance))
    } else {
        Found::OutOfRange
    }
}

/// A value so far from a base, where 64 bits hold the distance.
fn near_held(base: Base, distance: Option<i64>) -> Found
    ensures some { IfSome distance (λ k. result ≡ near base k) }
    ensures none { IfNone distance (result ≡ Found.OutOfRange) }
{
    match distance {
        Some(distance) => near(base, distance),
        None => Found::OutOfRange,
    }
}

/// What a name stands for where it is used.
pub fn used(named: Named) -> Found
    ensures { result ≡ used named }
{
    match named {
        Named::Constant(value) => Found::Value(Value::Constant(value)),
        Named::Offset(offset) => near(Base::Module, i64::from(offset)),
    }
}

/// A constant that the assembler's arithmetic gives.
fn constant_found(outcome: Outcome) -> Found
    ensures { result ≡ constant_found outcome }
{
    match outcome {
        Outcome::Value(value) => Found::Value(Value::Constant(value)),
        Outcome::OutOfRange => Found::OutOfRange,
        Outcome::Undefined(column) => Found::Undefined(column),
    }
}

/// A placed value, and a constant behind it.
fn placed_moved(operator: Operator, base: Base, distance: i64, constant: i64) -> Found
    ensures { result ≡ placed_moved operator base distance constant }
{
    match operator {
        Operator::Plus => near_held(base, distance.checked_add(constant)),
        Operator::Minus => near_held(base, distance.checked_sub(constant)),
        _ => Found::Shapeless,
    }
}

/// A constant, and a placed value behind it.
fn moved_placed(operator: Operator, constant: i64, base: Base, distance: i64) -> Found
    ensures { result ≡ moved_placed operator constant base distance }
{
    match operator {
        Operator::Plus => near_held(base, constant.checked_add(distance)),
        _ => Found::Shapeless,
    }
}

/// Two placed values, on one base or not.
fn placed_joined(operator: Operator, one_base: bool, left: i64, right: i64) -> Found
    ensures { result ≡ placed_joined operator one_base left right }
{
    match operator {
        Operator::Minus if one_base => {
            constant_found(operator_value(Operator::Minus, left, right))
        }
        _ => Found::Shapeless,
    }
}

/// Two values joined.
fn values_joined(operator: Operator, left: Value, right: Value) -> Found
    ensures { result ≡ values_joined operator left right }
{
    match left {
        Value::Constant(left) => match right {
            Value::Constant(right) => constant_found(operator_value(operator, left, right)),
            Value::Placed(base, distance) => moved_placed(operator, left, base, distance),
        },
        Value::Placed(base, distance) => match right {
            Value::Constant(right) => placed_moved(operator, base, distance, right),
            Value::Placed(other, right) => {
                placed_joined(operator, same_base(base, other), distance, right)
            }
        },
    }
}

/// Two operands joined: the first undefined name is told, else that a value is out of range, else that there is no
/// such value.
pub fn both(operator: Operator, left: Found, right: Found) -> Found
    ensures { result ≡ both operator left right }
{
    match left {
        Found::Undefined(column) => Found::Undefined(column),
        Found::OutOfRange => match right {
            Found::Undefined(column) => Found::Undefined(column),
            _ => Found::OutOfRange,
        },
        Found::Shapeless | Found::Half(_, _, _) => match right {
            Found::Undefined(column) => Found::Undefined(column),
            Found::OutOfRange => Found::OutOfRange,
            _ => Found::Shapeless,
        },
        Found::Value(left) => match right {
            Found::Value(right) => values_joined(operator, left, right),
            Found::Half(_, _, _) => Found::Shapeless,
            other => other,
        },
    }
}

/// A placed value behind a prefix.
fn placed_before(prefix: Prefix, base: Base, distance: i64) -> Found
    ensures { result ≡ placed_before prefix base distance }
{
    match prefix {
        Prefix::Negative => Found::Shapeless,
        Prefix::LowByte => Found::Half(Half::Low, base, distance),
        Prefix::HighByte => Found::Half(Half::High, base, distance),
    }
}

/// A value behind a prefix.
fn value_before(prefix: Prefix, value: Value) -> Found
    ensures { result ≡ value_before prefix value }
{
    match value {
        Value::Constant(value) => constant_found(prefix_value(prefix, value)),
        Value::Placed(base, distance) => placed_before(prefix, base, distance),
    }
}

/// An operand behind a prefix.
pub fn before(prefix: Prefix, operand: Found) -> Found
    ensures { result ≡ before prefix operand }
{
    match operand {
        Found::Value(value) => value_before(prefix, value),
        Found::Half(_, _, _) => Found::Shapeless,
        other => other,
    }
}
