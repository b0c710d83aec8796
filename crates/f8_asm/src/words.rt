// Mnemonics and directives: which words there are, and what operands go behind each.
ghost use Rattle.std.specs.Prelude.{◌≡◌, ◌<◌, length, map, IfSome};
ghost use Rattle.std.specs.Option.{option_or};
ghost use Rattle.f8_spec.specs.Instructions.{InRange};
ghost use Rattle.f8_asm.specs.Registers.{at_word};
ghost use Rattle.f8_asm.specs.Words.{initial_of, row_at, plain_ops, own_word, field_word, field_words, directives};
ghost use Rattle.f8_asm.specs.Words.{op_of, op_shape, shape_of_op, shape_of, is_reserved, HasRoom};

use crate::fields::Field;
use crate::registers::{at_word, is_word, register_of};
use f8_ops::{encode, row_of};
use f8_spec::{Op, Row};

/// A statement with one operand, by what becomes of its value. A number is the opcode.
#[derive(Clone, Copy)]
pub enum Single {
    /// The byte behind the opcode, -128 to 255.
    Byte(u8),
    /// The port behind the opcode, 0 to 255.
    Port(u8),
    /// The word behind the opcode, 0 to 65,535.
    Word(u8),
    /// The place that the displacement behind the opcode leads to.
    Branch(u8),
    /// The field of the opcode.
    Small(Field),
    /// The next address.
    Org,
    /// The name's value.
    Equ,
}

/// What one item of a list takes.
#[derive(Clone, Copy)]
pub enum ItemSize {
    Byte,
    Word,
}

/// What goes behind a mnemonic or directive.
#[derive(Clone, Copy)]
pub enum Shape {
    /// Nothing: it is the opcode.
    Plain(u8),
    /// One expression.
    One(Single),
    /// A register: an expression or a word.
    Register(Field),
    /// Two expressions: the bits tested and the place that a branch leads to.
    Test(Field),
    /// `LR`: two registers.
    Load,
    /// Expressions, at least one.
    Items(ItemSize),
}

/// The instructions whose operand is no field of the opcode: their mnemonics name them alone. A row for each letter that a mnemonic
/// begins with, and the last for none.
const PLAIN_OPS: [&[Op]; 27] = [
    &[Op::Ai, Op::Am, Op::Adc, Op::Amd],
    &[Op::Br7],
    &[Op::Ci, Op::Cm, Op::Com],
    &[Op::Di, Op::Dci],
    &[Op::Ei],
    &[],
    &[],
    &[],
    &[Op::In, Op::Inc],
    &[Op::Jmp],
    &[],
    &[Op::Li, Op::Lm, Op::Lnk],
    &[],
    &[Op::Ni, Op::Nm, Op::Nop],
    &[Op::Oi, Op::Om, Op::Out],
    &[Op::Pi, Op::Pk, Op::Pop],
    &[],
    &[],
    &[Op::St],
    &[],
    &[],
    &[],
    &[],
    &[Op::Xi, Op::Xm, Op::Xdc],
    &[],
    &[],
    &[],
];

/// Words that name one instruction of those with another mnemonic.
const ALIASES: [(&[u8], Op); 9] = [
    (b"BC", Op::Bt { t: 2 }),
    (b"BM", Op::Bf { t: 1 }),
    (b"BP", Op::Bt { t: 1 }),
    (b"BR", Op::Bf { t: 0 }),
    (b"BZ", Op::Bt { t: 4 }),
    (b"BNC", Op::Bf { t: 2 }),
    (b"BNO", Op::Bf { t: 8 }),
    (b"BNZ", Op::Bf { t: 4 }),
    (b"CLR", Op::Lis { n: 0 }),
];

/// Mnemonics with a field of the opcode behind them, or two registers, each by an instruction with it, in such rows.
const FIELD_WORDS: [&[(Op, Shape)]; 27] = [
    &[
        (Op::As { r: 0 }, Shape::Register(Field::As)),
        (Op::Asd { r: 0 }, Shape::Register(Field::Asd)),
    ],
    &[
        (Op::Bf { t: 0 }, Shape::Test(Field::Bf)),
        (Op::Bt { t: 0 }, Shape::Test(Field::Bt)),
    ],
    &[],
    &[(Op::Ds { r: 0 }, Shape::Register(Field::Ds))],
    &[],
    &[],
    &[],
    &[],
    &[(Op::Ins { n: 0 }, Shape::One(Single::Small(Field::Ins)))],
    &[],
    &[],
    &[
        (Op::LrAKu, Shape::Load),
        (Op::Lis { n: 0 }, Shape::One(Single::Small(Field::Lis))),
        (Op::Lisl { n: 0 }, Shape::One(Single::Small(Field::Lisl))),
        (Op::Lisu { n: 0 }, Shape::One(Single::Small(Field::Lisu))),
    ],
    &[],
    &[(Op::Ns { r: 0 }, Shape::Register(Field::Ns))],
    &[(Op::Outs { n: 0 }, Shape::One(Single::Small(Field::Outs)))],
    &[],
    &[],
    &[],
    &[
        (Op::Sl1, Shape::One(Single::Small(Field::Sl))),
        (Op::Sr1, Shape::One(Single::Small(Field::Sr))),
    ],
    &[],
    &[],
    &[],
    &[],
    &[(Op::Xs { r: 0 }, Shape::Register(Field::Xs))],
    &[],
    &[],
    &[],
];

/// The directives.
const DIRECTIVES: [(&[u8], Shape); 4] = [
    (b"DB", Shape::Items(ItemSize::Byte)),
    (b"DW", Shape::Items(ItemSize::Word)),
    (b"EQU", Shape::One(Single::Equ)),
    (b"ORG", Shape::One(Single::Org)),
];

/// The most letters that a mnemonic or directive has.
const LONGEST: usize = 4;

/// The row for a word, by its first letter.
#[tactic(auto, unfolding(crate::specs::Words::initial_of))]
fn initial_of(name: &[u8]) -> usize
    ensures value { result ≡ initial_of name.now }
    ensures below { result < 27 }
{
    let Some((first, _)) = name.split_first() else {
        return 26;
    };
    let letter = first.to_ascii_lowercase();
    if letter < b'a' || letter > b'z' {
        return 26;
    }
    usize::from(letter - b'a')
}

/// The one of these instructions whose mnemonic is a word.
fn op_at(mut ops: &[Op], name: &[u8]) -> Option<Op>
    ensures { result ≡ at_word name.now (map own_word ops.entry.now) }
{
    while let [op, rest @ ..] = ops {
        if is_word(name, f8_ops::name(*op).as_bytes()) {
            return Some(*op);
        }
        ops = rest;
    }
    None
}

/// What goes behind a word that is the mnemonic of one of these instructions.
fn field_at(mut table: &[(Op, Shape)], name: &[u8]) -> Option<Shape>
    ensures { result ≡ at_word name.now (map field_word table.entry.now) }
{
    while let [entry, rest @ ..] = table {
        if is_word(name, f8_ops::name(entry.0).as_bytes()) {
            return Some(entry.1);
        }
        table = rest;
    }
    None
}

/// The one of these instructions, in rows by the first letter, whose mnemonic is a word.
fn op_in(rows: &[&[Op]], name: &[u8]) -> Option<Op>
    requires { length rows.now ≡ 27 }
    ensures { result ≡ at_word name.now
        (map own_word (row_at (map (λ row. row.now) rows.now) name.now)) }
{
    op_at(rows[initial_of(name)], name)
}

/// What goes behind a word, in rows by the first letter, that is the mnemonic of one of these instructions.
fn field_in(rows: &[&[(Op, Shape)]], name: &[u8]) -> Option<Shape>
    requires { length rows.now ≡ 27 }
    ensures { result ≡ at_word name.now
        (map field_word (row_at (map (λ row. row.now) rows.now) name.now)) }
{
    field_at(rows[initial_of(name)], name)
}

/// The instruction whose mnemonic names it alone.
fn plain_op(name: &[u8]) -> Option<Op>
    ensures { result ≡ at_word name.now (map own_word plain_ops) }
{
    op_in(&PLAIN_OPS, name)
}

/// What goes behind the mnemonic of an instruction with a field, and `LR`.
fn field_shape(name: &[u8]) -> Option<Shape>
    ensures { result ≡ at_word name.now (map field_word field_words) }
{
    field_in(&FIELD_WORDS, name)
}

/// The instruction that a word names alone.
#[tactic(auto, unfolding(crate::specs::Words::op_of))]
fn op_of(name: &[u8]) -> Option<Op>
    ensures value { result ≡ op_of name.now }
    ensures in_range { IfSome result InRange }
{
    match plain_op(name) {
        Some(op) => Some(op),
        None => at_word(&ALIASES, name),
    }
}

/// The operand that an opcode wants behind it, by the row of its instruction.
fn op_shape(row: Row, code: u8) -> Shape
    ensures value { result ≡ op_shape row code }
    ensures room { HasRoom result }
{
    match row {
        Row::Immediate => Shape::One(Single::Byte(code)),
        Row::PortIn | Row::PortOut => Shape::One(Single::Port(code)),
        Row::Call | Row::Jump | Row::LoadData => Shape::One(Single::Word(code)),
        Row::Branch | Row::BranchIsar => Shape::One(Single::Branch(code)),
        _ => Shape::Plain(code),
    }
}

/// The operand that an instruction wants behind its opcode.
fn shape_of_op(op: Op) -> Shape
    requires { InRange op }
    ensures value { result ≡ shape_of_op op }
    ensures room { HasRoom result }
{
    op_shape(row_of(op), encode(op))
}

/// What goes behind a mnemonic that names no instruction alone, or a directive.
fn other_shape(name: &[u8]) -> Option<Shape>
    ensures value { result ≡ option_or (at_word name.now (map field_word field_words))
        (at_word name.now directives) }
    ensures room { IfSome result HasRoom }
{
    match field_shape(name) {
        Some(shape) => Some(shape),
        None => at_word(&DIRECTIVES, name),
    }
}

/// What goes behind a mnemonic or directive.
#[tactic(auto, unfolding(crate::specs::Words::shape_of))]
pub fn shape_of(name: &[u8]) -> Option<Shape>
    ensures value { result ≡ shape_of name.now }
    ensures room { IfSome result HasRoom }
{
    if name.len() > LONGEST {
        return None;
    }
    match op_of(name) {
        Some(op) => Some(shape_of_op(op)),
        None => other_shape(name),
    }
}

/// Whether a word can't be a name.
#[tactic(auto, unfolding(crate::specs::Words::is_reserved))]
pub fn is_reserved(name: &[u8]) -> bool
    ensures { result ≡ is_reserved name.now }
{
    register_of(name).is_some() || shape_of(name).is_some()
}
