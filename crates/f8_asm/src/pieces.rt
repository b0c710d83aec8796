// Which statements bytes are listed as.
ghost use Rattle.std.specs.Prelude.{◌≡◌, ◌<◌, ◌≤◌, ◌+◌, length};
ghost use Rattle.f8_asm.specs.Listing.{EntryFits, FieldFits, field_of, tail_of, target, data_piece, byte_piece};
ghost use Rattle.f8_asm.specs.Listing.{place_piece, word_piece, op_piece, piece};
ghost use Rattle.f8_spec.specs.Instructions.{decoded};

use crate::spelling::Entry;
use f8_ops::{decode, row_of};
use f8_spec::{Op, Row};

/// What stands behind an opcode.
#[derive(Clone, Copy)]
pub enum Tail {
    Nothing,
    Byte,
    /// A displacement, which is listed as the place that it leads to.
    Place,
    Word,
}

/// A statement of a listing, the bytes that it takes, and how many bytes behind them aren't an instruction's.
#[derive(Clone, Copy)]
pub struct Piece {
    pub entry: Entry,
    pub length: usize,
    pub raw: usize,
}

/// What stands behind an opcode, by the row of its instruction.
fn tail_of(row: Row) -> Tail
    ensures { result ≡ tail_of row }
{
    match row {
        Row::Immediate | Row::PortIn | Row::PortOut => Tail::Byte,
        Row::Branch | Row::BranchIsar => Tail::Place,
        Row::Call | Row::Jump | Row::LoadData => Tail::Word,
        _ => Tail::Nothing,
    }
}

/// Where a displacement at this address leads to, if it stays among the addresses.
fn target(place: u32, displacement: u8) -> Option<u16>
    requires { place ≤ 65536 }
    ensures { result ≡ target place displacement }
{
    let sum = place + u32::from(displacement);
    if displacement < 128 {
        if sum < 65_536 {
            return Some(sum as u16);
        }
        return None;
    }
    if sum < 256 {
        return None;
    }
    Some((sum - 256) as u16)
}

/// A byte that isn't an instruction's.
fn data_piece(byte: u8, raw: usize) -> Piece
    ensures { result ≡ data_piece byte raw }
{
    Piece {
        entry: Entry::Data(byte),
        length: 1,
        raw,
    }
}

/// An instruction with a byte operand.
fn byte_piece(byte: u8, op: Op, behind: &[u8]) -> Piece
    requires { FieldFits (field_of op) }
    ensures value { result ≡ byte_piece byte op behind.now }
    ensures some { 1 ≤ result.length }
    ensures within { result.length ≤ length behind.now + 1 }
    ensures fits { EntryFits result.entry }
{
    match behind.split_first() {
        Some((operand, _)) => Piece {
            entry: Entry::Byte(op, *operand),
            length: 2,
            raw: 0,
        },
        None => data_piece(byte, 0),
    }
}

/// A branch.
fn place_piece(address: u32, byte: u8, op: Op, behind: &[u8]) -> Piece
    requires address { address < 65536 }
    requires fits { FieldFits (field_of op) }
    ensures value { result ≡ place_piece address byte op behind.now }
    ensures some { 1 ≤ result.length }
    ensures within { result.length ≤ length behind.now + 1 }
    ensures fits { EntryFits result.entry }
{
    let Some((displacement, _)) = behind.split_first() else {
        return data_piece(byte, 0);
    };
    match target(address + 1, *displacement) {
        Some(place) => Piece {
            entry: Entry::Word(op, place),
            length: 2,
            raw: 0,
        },
        None => data_piece(byte, 1),
    }
}

/// An instruction with a word operand.
fn word_piece(byte: u8, op: Op, behind: &[u8]) -> Piece
    requires { FieldFits (field_of op) }
    ensures value { result ≡ word_piece byte op behind.now }
    ensures some { 1 ≤ result.length }
    ensures within { result.length ≤ length behind.now + 1 }
    ensures fits { EntryFits result.entry }
{
    let Some((high, low)) = behind.split_first() else {
        return data_piece(byte, 0);
    };
    match low.split_first() {
        Some((low, _)) => Piece {
            entry: Entry::Word(op, 256 * u16::from(*high) + u16::from(*low)),
            length: 3,
            raw: 0,
        },
        None => data_piece(byte, 1),
    }
}

/// The statement of an opcode at this address and the bytes behind it.
#[tactic(auto, using(crate::proofs::FieldLimits::fields_fit))]
fn op_piece(address: u32, byte: u8, behind: &[u8]) -> Piece
    requires { address < 65536 }
    ensures value { result ≡ op_piece address byte behind.now (decoded byte) }
    ensures some { 1 ≤ result.length }
    ensures within { result.length ≤ length behind.now + 1 }
    ensures fits { EntryFits result.entry }
{
    let Ok(op) = decode(byte) else {
        return data_piece(byte, 0);
    };
    match tail_of(row_of(op)) {
        Tail::Nothing => Piece {
            entry: Entry::Plain(op),
            length: 1,
            raw: 0,
        },
        Tail::Byte => byte_piece(byte, op, behind),
        Tail::Place => place_piece(address, byte, op, behind),
        Tail::Word => word_piece(byte, op, behind),
    }
}

/// The statement of a byte at this address and those behind it, of which `raw` bytes aren't an instruction's.
#[tactic(auto, unfolding(crate::specs::Listing::piece))]
pub fn next_piece(raw: usize, address: u32, byte: u8, behind: &[u8]) -> Piece
    requires { address < 65536 }
    ensures value { result ≡ piece raw address byte behind.now }
    ensures some { 1 ≤ result.length }
    ensures within { result.length ≤ length behind.now + 1 }
    ensures fits { EntryFits result.entry }
{
    if raw > 0 {
        return data_piece(byte, raw - 1);
    }
    op_piece(address, byte, behind)
}
