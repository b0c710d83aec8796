// Operands judged: whether their values fit their places.
ghost use Rattle.std.specs.Prelude.{◌≡◌, ◌≤◌, ◌<◌, IfOk};
ghost use Rattle.f8_spec.specs.Instructions.{InRange};
ghost use Rattle.f8_asm.specs.Fields.{last_of, op_with};
ghost use Rattle.f8_asm.specs.Judging.{fault_at, operand_value, unsigned_value, byte, displacement, with_field};

use crate::answers::AsmCause;
use crate::faults::LineFault;
use crate::fields::{Field, last_of, octet, op_with, small};
use crate::operands::Operand;
use crate::values::Outcome;
use f8_spec::Op;

/// A fault at a column.
fn fault_at(column: u32, cause: AsmCause) -> LineFault
    ensures { result ≡ fault_at column cause }
{
    LineFault {
        column: Some(column),
        cause,
    }
}

/// The value of an operand.
pub fn operand_value(operand: Operand<Outcome>) -> Result<i64, LineFault>
    ensures { result ≡ operand_value operand }
{
    match operand.value {
        Outcome::Value(value) => Ok(value),
        Outcome::OutOfRange => Err(fault_at(operand.column, AsmCause::Range)),
        Outcome::Undefined(column) => Err(fault_at(column, AsmCause::Undefined)),
    }
}

/// A value from 0 to `last`.
pub fn unsigned_value(last: u16, operand: Operand<Outcome>) -> Result<u16, LineFault>
    ensures value { result ≡ unsigned_value last operand }
    ensures within { IfOk result (λ n. n ≤ last) }
{
    match small(last, operand_value(operand)?) {
        Some(number) => Ok(number),
        None => Err(fault_at(operand.column, AsmCause::Range)),
    }
}

/// A byte: a value from -128 to 255.
pub fn byte(operand: Operand<Outcome>) -> Result<u8, LineFault>
    ensures { result ≡ byte operand }
{
    match octet(255, operand_value(operand)?) {
        Some(byte) => Ok(byte),
        None => Err(fault_at(operand.column, AsmCause::Range)),
    }
}

/// How far a place lies from the displacement byte behind an opcode at this address: -128 to 127.
pub fn displacement(address: u32, operand: Operand<Outcome>) -> Result<u8, LineFault>
    ensures { result ≡ displacement address operand }
{
    let place = operand_value(operand)?;
    let distance = place.checked_sub(i64::from(address) + 1);
    match distance {
        Some(distance) => match octet(127, distance) {
            Some(byte) => Ok(byte),
            None => Err(fault_at(operand.column, AsmCause::BranchRange)),
        },
        None => Err(fault_at(operand.column, AsmCause::BranchRange)),
    }
}

/// The instruction with a value in its field.
pub fn with_field(field: Field, operand: Operand<Outcome>) -> Result<Op, LineFault>
    ensures value { result ≡ with_field field operand }
    ensures in_range { IfOk result InRange }
{
    let number = unsigned_value(u16::from(last_of(field)), operand)?;
    match op_with(field, number as u8) {
        Some(op) => Ok(op),
        None => Err(fault_at(operand.column, AsmCause::Range)),
    }
}
