// What stands at the front of the rest of a line.
ghost use Rattle.std.specs.Prelude.{◌≡◌, ◌≤◌, ◌+◌, length, IsTrue};
ghost use Rattle.asm_text.specs.Bytes.{begins_name};
ghost use Rattle.asm_text.specs.Lexemes.{name_lexeme, number_lexeme, quoted_lexeme, lexeme, IsWithin};

use crate::answers::{NAME_LIMIT, Name, TokenKind};
use crate::bytes::{digits_length, is_letter, is_mark, name_length, number};

/// What stands at the front of the rest of a line.
#[derive(Drop)]
pub enum Lexeme {
    /// A blank or a tab.
    Blank,
    /// The end of the line, or a comment, which goes on to it.
    End,
    /// Nothing that is known.
    Bad,
    /// A number above 4,294,967,295.
    Wide,
    /// A token and how many bytes it takes.
    Lexed { kind: TokenKind, length: usize },
}

/// The longest name at the front of bytes that begin with a letter or `_`.
#[tactic(auto, using(crate::proofs::Runs::name_run), unfolding(crate::specs::Lexemes::name_lexeme, crate::specs::Lexemes::name_of))]
fn name_lexeme(bytes: &[u8]) -> Lexeme
    requires { IsTrue (begins_name bytes.now) }
    ensures value { result ≡ name_lexeme bytes.now }
    ensures within { IsWithin (length bytes.now) result }
{
    let length = name_length(bytes);
    if length > NAME_LIMIT {
        return Lexeme::Bad;
    }
    Lexeme::Lexed {
        kind: TokenKind::Name(Name::of(&bytes[..length])),
        length,
    }
}

/// The longest number at the front of bytes that stand behind `before` bytes which show its base.
#[tactic(auto, using(crate::proofs::Runs::all_in_run), unfolding(crate::specs::Lexemes::number_lexeme, crate::specs::Lexemes::digits_lexeme))]
fn number_lexeme(base: u32, before: usize, bytes: &[u8]) -> Lexeme
    requires base_low { 2 ≤ base }
    requires base_high { base ≤ 16 }
    requires before { before ≤ 1 }
    ensures value { result ≡ number_lexeme base before bytes.now }
    ensures within { IsWithin (before + length bytes.now) result }
{
    let length = digits_length(bytes, base);
    if length == 0 {
        return Lexeme::Bad;
    }
    match number(&bytes[..length], base) {
        Some(value) => Lexeme::Lexed {
            kind: TokenKind::Number(value),
            length: before + length,
        },
        None => Lexeme::Wide,
    }
}

/// The character in quotes whose first quote stands before these bytes.
#[tactic(auto, unfolding(crate::specs::Lexemes::quoted_lexeme))]
fn quoted_lexeme(bytes: &[u8]) -> Lexeme
    ensures value { result ≡ quoted_lexeme bytes.now }
    ensures within { IsWithin (1 + length bytes.now) result }
{
    match bytes {
        [character @ b' '..=b'~', b'\'', ..] => Lexeme::Lexed {
            kind: TokenKind::Number(u32::from(*character)),
            length: 3,
        },
        _ => Lexeme::Bad,
    }
}

/// What stands at the front of the rest of a line.
#[tactic(auto, unfolding(crate::specs::Lexemes::lexeme))]
pub fn lexeme_at(rest: &[u8]) -> Lexeme
    ensures value { result ≡ lexeme rest.now }
    ensures within { IsWithin (length rest.now) result }
{
    let Some((first, behind)) = rest.split_first() else {
        return Lexeme::End;
    };
    match *first {
        b' ' | b'\t' => Lexeme::Blank,
        b';' => Lexeme::End,
        b'$' => number_lexeme(16, 1, behind),
        b'%' => number_lexeme(2, 1, behind),
        b'\'' => quoted_lexeme(behind),
        b'0'..=b'9' => number_lexeme(10, 0, rest),
        byte if is_letter(byte) => name_lexeme(rest),
        byte if is_mark(byte) => Lexeme::Lexed {
            kind: TokenKind::Mark(byte),
            length: 1,
        },
        _ => Lexeme::Bad,
    }
}
