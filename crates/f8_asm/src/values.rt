// The numbers of expressions, and what operators and prefixes make of them.
ghost use Rattle.std.specs.Prelude.{◌≡◌, IfSome, IfNone};
ghost use Rattle.f8_asm.specs.Values.{within, operator_value, both, prefix_value, before};

/// What an expression comes to.
#[derive(Clone, Copy)]
pub enum Outcome {
    Value(i64),
    /// A value, also one in between, is too large or too small.
    OutOfRange,
    /// The first name without a value stands at this column.
    Undefined(u32),
}

/// What stands between two operands.
#[derive(Clone, Copy)]
pub enum Operator {
    Or,
    And,
    Plus,
    Minus,
    Times,
    Divide,
}

/// What stands before an operand.
#[derive(Clone, Copy)]
pub enum Prefix {
    Negative,
    LowByte,
    HighByte,
}

/// The least value of an expression.
const LEAST: i64 = -2_147_483_648;
/// The greatest value of an expression.
const GREATEST: i64 = 4_294_967_295;

/// A value, if it is neither too large nor too small.
fn within(value: i64) -> Outcome
    ensures { result ≡ within value }
{
    if LEAST <= value && value <= GREATEST {
        Outcome::Value(value)
    } else {
        Outcome::OutOfRange
    }
}

/// A value, where 64 bits hold it, if it is neither too large nor too small.
fn value_held(value: Option<i64>) -> Outcome
    ensures some { IfSome value (λ v. result ≡ within v) }
    ensures none { IfNone value (result ≡ Outcome.OutOfRange) }
{
    match value {
        Some(value) => within(value),
        None => Outcome::OutOfRange,
    }
}

/// Two values joined.
pub fn operator_value(operator: Operator, left: i64, right: i64) -> Outcome
    ensures { result ≡ operator_value operator left right }
{
    match operator {
        Operator::Or => within(left | right),
        Operator::And => within(left & right),
        Operator::Plus => value_held(left.checked_add(right)),
        Operator::Minus => value_held(left.checked_sub(right)),
        Operator::Times => value_held(left.checked_mul(right)),
        Operator::Divide => value_held(left.checked_div(right)),
    }
}

/// Two operands joined: the first undefined name is told, else that a value is out of range.
pub fn both(operator: Operator, left: Outcome, right: Outcome) -> Outcome
    ensures { result ≡ both operator left right }
{
    match left {
        Outcome::Undefined(column) => Outcome::Undefined(column),
        Outcome::OutOfRange => match right {
            Outcome::Undefined(column) => Outcome::Undefined(column),
            _ => Outcome::OutOfRange,
        },
        Outcome::Value(left) => match right {
            Outcome::Value(right) => operator_value(operator, left, right),
            other => other,
        },
    }
}

/// A value behind a prefix.
pub fn prefix_value(prefix: Prefix, value: i64) -> Outcome
    ensures { result ≡ prefix_value prefix value }
{
    match prefix {
        Prefix::Negative => value_held(value.checked_neg()),
        Prefix::LowByte if value >= 0 => Outcome::Value(value % 256),
        Prefix::HighByte if value >= 0 => Outcome::Value(value / 256 % 256),
        _ => Outcome::OutOfRange,
    }
}

/// An operand behind a prefix.
pub fn before(prefix: Prefix, operand: Outcome) -> Outcome
    ensures { result ≡ before prefix operand }
{
    match operand {
        Outcome::Value(value) => prefix_value(prefix, value),
        other => other,
    }
}
