// How a listing writes statements.
ghost use Rattle.std.specs.Prelude.{◌≡◌, ◌<◌, ◌++◌, OnOk};
ghost use Rattle.f8_spec.specs.Spelling.{hex2, hex4};
ghost use Rattle.f8_asm.specs.Listing.{small_decimal, register_text, pair_text, seen_text, gap_of, front_of, field_of};
ghost use Rattle.f8_asm.specs.Listing.{FieldFits, EntryFits, field_text, back_of, with_head, with_entry};

use f8_ops::name;
use f8_spec::Op;
use std::alloc::AllocError;
use text_lines::hex2;

/// A statement of a listing.
#[derive(Clone, Copy)]
pub enum Entry {
    /// A byte that isn't an instruction's.
    Data(u8),
    /// An instruction of one byte.
    Plain(Op),
    /// An instruction with a byte behind the opcode.
    Byte(Op, u8),
    /// An instruction with a word, or with the place that a branch leads to.
    Word(Op, u16),
}

/// The field that an instruction shows.
#[derive(Clone, Copy)]
pub enum FieldText {
    Nothing,
    /// A register, by number or by word.
    Register(u8),
    /// A number in decimal.
    Small(u8),
}

/// Writes a byte in two hex digits.
fn push_byte(text: &mut Vec<u8>, byte: u8) -> Result<(), AllocError>
    ensures { OnOk result (text.new.items ≡ text.old.items ++ hex2 byte) }
{
    text.extend_from_slice(&hex2(byte))
}

/// Writes a word in four hex digits.
fn push_word(text: &mut Vec<u8>, word: u16) -> Result<(), AllocError>
    ensures { OnOk result (text.new.items ≡ text.old.items ++ hex4 word) }
{
    push_byte(text, (word / 256) as u8)?;
    push_byte(text, (word % 256) as u8)
}

/// Writes a number below 16 in decimal.
fn push_small(text: &mut Vec<u8>, number: u8) -> Result<(), AllocError>
    requires { number < 16 }
    ensures { OnOk result (text.new.items ≡ text.old.items ++ small_decimal number) }
{
    if number < 10 {
        return text.extend_from_slice(&[b'0' + number]);
    }
    text.extend_from_slice(&[b'1', b'0' + (number - 10)])
}

/// Writes a register.
fn push_register(text: &mut Vec<u8>, register: u8) -> Result<(), AllocError>
    requires { register < 16 }
    ensures { OnOk result (text.new.items ≡ text.old.items ++ register_text register) }
{
    match register {
        12 => text.extend_from_slice(b"S"),
        13 => text.extend_from_slice(b"I"),
        14 => text.extend_from_slice(b"D"),
        _ => push_small(text, register),
    }
}

/// The operands of an LR between two registers that words alone name.
#[tactic(auto, unfolding(crate::specs::Listing::pair_text))]
fn pair_text(op: Op) -> Option<&'static str>
    ensures { seen_text result ≡ pair_text op }
{
    match op {
        Op::LrAKu => Some(" A,KU"),
        Op::LrAKl => Some(" A,KL"),
        Op::LrAQu => Some(" A,QU"),
        Op::LrAQl => Some(" A,QL"),
        Op::LrKuA => Some(" KU,A"),
        Op::LrKlA => Some(" KL,A"),
        Op::LrQuA => Some(" QU,A"),
        Op::LrQlA => Some(" QL,A"),
        Op::LrKP => Some(" K,P"),
        Op::LrPK => Some(" P,K"),
        Op::LrAIs => Some(" A,IS"),
        Op::LrIsA => Some(" IS,A"),
        Op::LrP0Q => Some(" P0,Q"),
        Op::LrQDc => Some(" Q,DC"),
        Op::LrDcQ => Some(" DC,Q"),
        Op::LrDcH => Some(" DC,H"),
        Op::LrHDc => Some(" H,DC"),
        Op::LrWJ => Some(" W,J"),
        Op::LrJW => Some(" J,W"),
        _ => None,
    }
}

/// What stands between the mnemonic and the field of any other instruction.
#[tactic(auto, unfolding(crate::specs::Listing::gap_of))]
fn gap_of(op: Op) -> &'static str
    ensures { result.now ≡ gap_of op }
{
    match op {
        Op::Sr1 | Op::Sl1 => " 1",
        Op::Sr4 | Op::Sl4 => " 4",
        Op::LrAR { .. } => " A,",
        Op::Pk
        | Op::Lm
        | Op::St
        | Op::Com
        | Op::Lnk
        | Op::Di
        | Op::Ei
        | Op::Pop
        | Op::Inc
        | Op::Nop
        | Op::Xdc
        | Op::Am
        | Op::Amd
        | Op::Nm
        | Op::Om
        | Op::Xm
        | Op::Cm
        | Op::Adc => "",
        _ => " ",
    }
}

/// What stands between the mnemonic and the field, or what the operands are.
#[tactic(auto, unfolding(crate::specs::Listing::front_of))]
fn front_of(op: Op) -> &'static str
    ensures { result.now ≡ front_of op }
{
    match pair_text(op) {
        Some(text) => text,
        None => gap_of(op),
    }
}

/// The field that an instruction shows.
fn field_of(op: Op) -> FieldText
    ensures { result ≡ field_of op }
{
    match op {
        Op::Ds { r }
        | Op::LrAR { r }
        | Op::LrRA { r }
        | Op::As { r }
        | Op::Asd { r }
        | Op::Xs { r }
        | Op::Ns { r } => FieldText::Register(r),
        Op::Lisu { n } | Op::Lisl { n } | Op::Lis { n } | Op::Ins { n } | Op::Outs { n } => {
            FieldText::Small(n)
        }
        Op::Bt { t } | Op::Bf { t } => FieldText::Small(t),
        _ => FieldText::Nothing,
    }
}

/// Writes a field.
fn push_field(text: &mut Vec<u8>, field: FieldText) -> Result<(), AllocError>
    requires { FieldFits field }
    ensures { OnOk result (text.new.items ≡ text.old.items ++ field_text field) }
{
    match field {
        FieldText::Nothing => Ok(()),
        FieldText::Register(register) => push_register(text, register),
        FieldText::Small(number) => push_small(text, number),
    }
}

/// What stands behind the field.
fn back_of(op: Op) -> &'static str
    ensures { result.now ≡ back_of op }
{
    match op {
        Op::LrRA { .. } => ",A",
        Op::Bt { .. } | Op::Bf { .. } => ",",
        _ => "",
    }
}

/// Writes an instruction without its operand bytes.
fn push_head(text: &mut Vec<u8>, op: Op) -> Result<(), AllocError>
    requires { FieldFits (field_of op) }
    ensures { OnOk result (text.new.items ≡ with_head text.old.items op) }
{
    text.extend_from_slice(name(op).as_bytes())?;
    text.extend_from_slice(front_of(op).as_bytes())?;
    push_field(text, field_of(op))?;
    text.extend_from_slice(back_of(op).as_bytes())
}

/// Writes a statement and its line end.
pub fn push_entry(text: &mut Vec<u8>, entry: Entry) -> Result<(), AllocError>
    requires { EntryFits entry }
    ensures { OnOk result (text.new.items ≡ with_entry text.old.items entry) }
{
    match entry {
        Entry::Data(byte) => {
            text.extend_from_slice(b"DB $")?;
            push_byte(text, byte)?;
            text.extend_from_slice(b"\n")
        }
        Entry::Plain(op) => {
            push_head(text, op)?;
            text.extend_from_slice(b"\n")
        }
        Entry::Byte(op, byte) => {
            push_head(text, op)?;
            text.extend_from_slice(b"$")?;
            push_byte(text, byte)?;
            text.extend_from_slice(b"\n")
        }
        Entry::Word(op, word) => {
            push_head(text, op)?;
            text.extend_from_slice(b"$")?;
            push_word(text, word)?;
            text.extend_from_slice(b"\n")
        }
    }
}
