// What linking puts into the bytes of a module.
ghost use Rattle.std.specs.Prelude.{◌≡◌, ◌≤◌, ◌<◌, ◌+◌, ◌^◌, slice_set};
ghost use Rattle.std.specs.List.{list_all};
ghost use Rattle.text_lines.specs.ReadErrors.{SaysSeen};
ghost use Rattle.f8_asm.specs.Values.{prefix_value};
ghost use Rattle.f8_link.specs.Linking.{base_value, half_byte, fixed_bytes, bytes_of_filling, fixed_value, fixed, put};
ghost use Rattle.f8_link.specs.Linking.{fixup_put, caused, in_reach, bytes_fixed};

use crate::answers::LinkCause;
use crate::objects::{Fixup, FixupKind};
use crate::parts::Part;
use crate::values::Base;
use f8_asm::{Operator, Outcome, Prefix, octet, operator_value, small};
use std::alloc::{AllocError, Global};
use text_lines::ReadError;

/// Why a module isn't linked.
pub type LinkStop = ReadError<LinkCause>;

impl From<LinkCause> for ReadError<LinkCause> {
    ghost use Rattle.std.specs.Prelude.{◌≡◌};
    ghost use Rattle.text_lines.specs.declared.read_error.ReadError.TheVariants.{Fault};

    ghost from_gives = { λ f e. e ≡ Fault f };

    fn from(cause: LinkCause) -> ReadError<LinkCause> {
        ReadError::Fault(cause)
    }
}

/// One or two bytes that linking puts.
#[derive(Clone, Copy)]
pub enum Filling {
    Byte(u8),
    Word(u16),
}

/// The least and the greatest value of an import.
const LEAST: i64 = -2_147_418_113;

const GREATEST: i64 = 4_294_901_760;

/// The value of a base: none is 0, the module is where it begins, and an import is what it was found to be.
fn base_value(first: u16, imports: &[i64], base: Option<Base>) -> i64
    ensures { result ≡ base_value first imports.now base }
{
    match base {
        None => 0,
        Some(Base::Module) => i64::from(first),
        Some(Base::Import(number)) => match imports.get(number) {
            Some(value) => *value,
            None => 0,
        },
    }
}

/// The low byte of a value that isn't negative.
fn low_byte(value: i64) -> Option<Filling>
    ensures { fixed_bytes result ≡ half_byte (prefix_value Prefix.LowByte value) }
{
    if value < 0 {
        return None;
    }
    Some(Filling::Byte((value % 256) as u8))
}

/// The second byte from below of a value that isn't negative.
fn high_byte(value: i64) -> Option<Filling>
    ensures { fixed_bytes result ≡ half_byte (prefix_value Prefix.HighByte value) }
{
    if value < 0 {
        return None;
    }
    Some(Filling::Byte((value / 256 % 256) as u8))
}

/// What is put of a value, if it fits its place, at an address.
fn fixed_value(kind: FixupKind, address: u64, value: i64) -> Option<Filling>
    requires { address < 2 ^ 33 }
    ensures { fixed_bytes result ≡ fixed_value kind address value }
{
    match kind {
        FixupKind::Word => Some(Filling::Word(small(u16::MAX, value)?)),
        FixupKind::Byte => Some(Filling::Byte(octet(255, value)?)),
        FixupKind::Low => low_byte(value),
        FixupKind::High => high_byte(value),
        FixupKind::Branch => Some(Filling::Byte(octet(127, value.checked_sub(address as i64)?)?)),
    }
}

/// What is put of a sum, if it is a value and fits its place.
fn fixed(kind: FixupKind, address: u64, sum: Outcome) -> Option<Filling>
    requires { address < 2 ^ 33 }
    ensures { fixed_bytes result ≡ fixed kind address sum }
{
    match sum {
        Outcome::Value(value) => fixed_value(kind, address, value),
        _ => None,
    }
}

/// Puts a byte, if there is one at this offset.
fn put_byte(bytes: &mut [u8], offset: usize, byte: u8)
    ensures { bytes.new ≡ slice_set bytes.old offset byte }
{
    if offset < bytes.len() {
        bytes[offset] = byte;
    }
}

/// Puts a byte or a word, high byte first.
fn put(bytes: &mut [u8], offset: u32, fixed: Filling)
    ensures { bytes.new ≡ put bytes.old offset (bytes_of_filling fixed) }
{
    let offset = offset as usize;
    match fixed {
        Filling::Byte(byte) => put_byte(bytes, offset, byte),
        Filling::Word(word) => {
            put_byte(bytes, offset, (word / 256) as u8);
            put_byte(bytes, offset + 1, (word % 256) as u8);
        }
    }
}

/// Puts one thing into the bytes of a module that begins at this address.
#[tactic(auto, unfolding(crate::specs::Linking::fixup_put))]
fn fix(first: u16, imports: &[i64], bytes: &mut Vec<u8>, fixup: &Fixup) -> Result<(), LinkCause>
    ensures { caused result bytes.new.items
        ≡ fixup_put first imports.now bytes.old.items fixup.now }
{
    let sum = operator_value(
        Operator::Plus,
        base_value(first, imports, fixup.base),
        fixup.k,
    );
    let address = u64::from(first) + u64::from(fixup.offset);
    match fixed(fixup.kind, address, sum) {
        Some(fixed) => {
            put(bytes.as_mut_slice(), fixup.offset, fixed);
            Ok(())
        }
        None => Err(LinkCause::Reach),
    }
}

/// Whether no sum of an import's value leaves the values that an expression may have.
fn in_reach(value: i64) -> bool
    ensures { result ≡ in_reach value }
{
    LEAST <= value && value <= GREATEST
}

/// Whether no sum of one of these values does.
fn are_in_reach(values: &[i64]) -> bool
    ensures { result ≡ list_all in_reach values.now }
{
    values.iter().all(|value| in_reach(*value))
}

/// The bytes of a module as linking leaves them, with the values of its imports.
pub fn bytes_fixed(alloc: Global, imports: &[i64], part: &Part) -> Result<Vec<u8>, LinkStop>
    ensures { SaysSeen (λ bytes. bytes.items) result (bytes_fixed imports.now part.now) }
{
    if !are_in_reach(imports) {
        return Err(LinkStop::Fault(LinkCause::Reach));
    }
    let mut bytes = Vec::new(alloc);
    bytes.extend_from_slice(part.object.bytes())?;
    for fixup in part.object.fixups() {
        fix(part.room.first, imports, &mut bytes, fixup)?;
    }
    Ok(bytes)
}
