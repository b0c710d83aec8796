// Register words, and the instruction LR between two of them.
ghost use Rattle.std.specs.Prelude.{◌≡◌, ◌<◌, map, IfSome};
ghost use Rattle.f8_spec.specs.Instructions.{InRange};
ghost use Rattle.f8_asm.specs.Registers.{same_word, at_word, register_of, register_number, is_accumulator, load_op};
ghost use Rattle.f8_asm.specs.Registers.{store_op, move_op, pair_op};

use asm_text::Name;
use f8_spec::Op;

/// A register word.
#[derive(Clone, Copy)]
pub enum Register {
    A,
    J,
    Hu,
    Hl,
    Ku,
    Kl,
    Qu,
    Ql,
    K,
    Q,
    H,
    S,
    I,
    D,
    Is,
    P,
    P0,
    Dc,
    W,
}

/// Whether two words are the same in either case.
#[tactic(auto, unfolding(crate::specs::Registers::same_word))]
pub fn is_word(name: &[u8], word: &[u8]) -> bool
    ensures { result ≡ same_word name.now word.now }
{
    name.eq_ignore_ascii_case(word)
}

/// What a table has at a word.
pub fn at_word<X: Copy>(mut table: &[(&[u8], X)], name: &[u8]) -> Option<X>
    ensures { result ≡ at_word name.now (map (λ entry. (entry.0.now, entry.1)) table.entry.now) }
{
    while let [entry, rest @ ..] = table {
        if is_word(name, entry.0) {
            return Some(entry.1);
        }
        table = rest;
    }
    None
}

/// The register words.
const REGISTER_WORDS: [(&[u8], Register); 19] = [
    (b"A", Register::A),
    (b"J", Register::J),
    (b"K", Register::K),
    (b"Q", Register::Q),
    (b"H", Register::H),
    (b"S", Register::S),
    (b"I", Register::I),
    (b"D", Register::D),
    (b"P", Register::P),
    (b"W", Register::W),
    (b"HU", Register::Hu),
    (b"HL", Register::Hl),
    (b"KU", Register::Ku),
    (b"KL", Register::Kl),
    (b"QU", Register::Qu),
    (b"QL", Register::Ql),
    (b"IS", Register::Is),
    (b"P0", Register::P0),
    (b"DC", Register::Dc),
];

/// The most letters that a register word has.
const LONGEST: usize = 2;

/// The register that a word names.
#[tactic(auto, unfolding(crate::specs::Registers::register_of))]
pub fn register_of(name: &[u8]) -> Option<Register>
    ensures { result ≡ register_of name.now }
{
    if name.len() > LONGEST {
        return None;
    }
    at_word(&REGISTER_WORDS, name)
}

/// The scratchpad register that a word stands for as an operand.
pub fn register_number(register: Register) -> Option<u8>
    ensures value { result ≡ register_number register }
    ensures below { IfSome result (λ r. r < 15) }
{
    match register {
        Register::J => Some(9),
        Register::Hu => Some(10),
        Register::Hl => Some(11),
        Register::S => Some(12),
        Register::I => Some(13),
        Register::D => Some(14),
        _ => None,
    }
}

/// Whether a register is the accumulator.
pub fn is_accumulator(register: Register) -> bool
    ensures { result ≡ is_accumulator register }
{
    matches!(register, Register::A)
}

/// `LR A,from`.
fn load_op(from: Register) -> Option<Op>
    ensures value { result ≡ load_op from }
    ensures in_range { IfSome result InRange }
{
    match from {
        Register::Ku => Some(Op::LrAKu),
        Register::Kl => Some(Op::LrAKl),
        Register::Qu => Some(Op::LrAQu),
        Register::Ql => Some(Op::LrAQl),
        Register::Is => Some(Op::LrAIs),
        _ => Some(Op::LrAR {
            r: register_number(from)?,
        }),
    }
}

/// `LR to,A`.
fn store_op(to: Register) -> Option<Op>
    ensures value { result ≡ store_op to }
    ensures in_range { IfSome result InRange }
{
    match to {
        Register::Ku => Some(Op::LrKuA),
        Register::Kl => Some(Op::LrKlA),
        Register::Qu => Some(Op::LrQuA),
        Register::Ql => Some(Op::LrQlA),
        Register::Is => Some(Op::LrIsA),
        _ => Some(Op::LrRA {
            r: register_number(to)?,
        }),
    }
}

/// `LR to,from` past the accumulator.
fn move_op(to: Register, from: Register) -> Option<Op>
    ensures value { result ≡ move_op to from }
    ensures in_range { IfSome result InRange }
{
    match (to, from) {
        (Register::K, Register::P) => Some(Op::LrKP),
        (Register::P, Register::K) => Some(Op::LrPK),
        (Register::P0, Register::Q) => Some(Op::LrP0Q),
        (Register::Q, Register::Dc) => Some(Op::LrQDc),
        (Register::Dc, Register::Q) => Some(Op::LrDcQ),
        (Register::Dc, Register::H) => Some(Op::LrDcH),
        (Register::H, Register::Dc) => Some(Op::LrHDc),
        (Register::W, Register::J) => Some(Op::LrWJ),
        (Register::J, Register::W) => Some(Op::LrJW),
        _ => None,
    }
}

/// `LR to,from`, if there is such an instruction.
#[tactic(auto, unfolding(crate::specs::Registers::pair_op))]
pub fn pair_op(to: Register, from: Register) -> Option<Op>
    ensures value { result ≡ pair_op to from }
    ensures in_range { IfSome result InRange }
{
    if is_accumulator(to) {
        return load_op(from);
    }
    if is_accumulator(from) {
        return store_op(to);
    }
    move_op(to, from)
}
