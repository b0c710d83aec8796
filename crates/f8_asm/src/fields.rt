// Instructions with one small field: how large it may be, and the instruction with it.
ghost use Rattle.std.specs.Prelude.{◌≡◌, ◌<◌, ◌≤◌, ◌||◌, ◌==◌, not, IfSome};
ghost use Rattle.f8_spec.specs.Instructions.{InRange};
ghost use Rattle.f8_asm.specs.Fields.{last_of, limit_of, shift, op_with, small, octet};

use f8_spec::Op;

/// What the small field of an opcode is a part of.
#[derive(Clone, Copy)]
pub enum Field {
    /// `SR` by 1 or 4.
    Sr,
    /// `SL` by 1 or 4.
    Sl,
    Lisu,
    Lisl,
    Lis,
    Ins,
    Outs,
    Bt,
    Bf,
    /// `LR A,r`.
    LrAR,
    /// `LR r,A`.
    LrRA,
    Ds,
    As,
    Asd,
    Xs,
    Ns,
}

/// The greatest number that an expression may give.
pub fn last_of(field: Field) -> u8
    ensures value { result ≡ last_of field }
    ensures below { result < limit_of field }
{
    match field {
        Field::Sr | Field::Sl => 4,
        Field::Lisu | Field::Lisl | Field::Bt => 7,
        Field::Lis | Field::Ins | Field::Outs | Field::Bf => 15,
        _ => 11,
    }
}

/// A shift by 1 or by 4.
fn shift(one: Op, four: Op, count: u8) -> Option<Op>
    requires one { InRange one }
    requires four { InRange four }
    ensures value { result ≡ shift one four count }
    ensures in_range { IfSome result InRange }
{
    match count {
        1 => Some(one),
        4 => Some(four),
        _ => None,
    }
}

/// Whether a port has an instruction of its own.
fn is_port(port: u8) -> bool
    ensures { result ≡ not ((port == 2) || (port == 3)) }
{
    port != 2 && port != 3
}

/// The instruction with this number in its field.
pub fn op_with(field: Field, number: u8) -> Option<Op>
    requires { number < limit_of field }
    ensures value { result ≡ op_with field number }
    ensures in_range { IfSome result InRange }
{
    match field {
        Field::Sr => shift(Op::Sr1, Op::Sr4, number),
        Field::Sl => shift(Op::Sl1, Op::Sl4, number),
        Field::Lisu => Some(Op::Lisu { n: number }),
        Field::Lisl => Some(Op::Lisl { n: number }),
        Field::Lis => Some(Op::Lis { n: number }),
        Field::Ins if is_port(number) => Some(Op::Ins { n: number }),
        Field::Outs if is_port(number) => Some(Op::Outs { n: number }),
        Field::Ins | Field::Outs => None,
        Field::Bt => Some(Op::Bt { t: number }),
        Field::Bf => Some(Op::Bf { t: number }),
        Field::LrAR => Some(Op::LrAR { r: number }),
        Field::LrRA => Some(Op::LrRA { r: number }),
        Field::Ds => Some(Op::Ds { r: number }),
        Field::As => Some(Op::As { r: number }),
        Field::Asd => Some(Op::Asd { r: number }),
        Field::Xs => Some(Op::Xs { r: number }),
        Field::Ns => Some(Op::Ns { r: number }),
    }
}

/// A value from 0 to `last`.
pub fn small(last: u16, value: i64) -> Option<u16>
    ensures value { result ≡ small last value }
    ensures within { IfSome result (λ n. n ≤ last) }
{
    if value < 0 || value > i64::from(last) {
        return None;
    }
    Some(value as u16)
}

/// A value from -128 to `last` as a byte, in two's complement where it is negative.
pub fn octet(last: u8, value: i64) -> Option<u8>
    ensures { result ≡ octet last value }
{
    if value < -128 || value > i64::from(last) {
        return None;
    }
    if value < 0 {
        return Some((value + 256) as u8);
    }
    Some(value as u8)
}
