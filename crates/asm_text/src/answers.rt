// The tokens that a line of assembly is read into, and what is wrong with a line that has none.
ghost use Rattle.std.specs.Prelude.{◌≡◌, IsTrue};
ghost use Rattle.asm_text.specs.Bytes.{is_name};

use arrayvec::ArrayString;
use std::alloc::{AllocError, AllocFailed};
use std::marker::Model;
use std::str;
use thiserror::Error;

/// The most bytes that a name may have.
pub(crate) const NAME_LIMIT: usize = 32;

/// A name in assembly text, case kept: a letter or `_`, then letters, digits and `_`, at most 32
/// bytes in all, which lie in the value itself. A contract sees the list of its bytes.
#[derive(Debug, Drop)]
pub struct Name {
    text: ArrayString<NAME_LIMIT>,
}

impl Model for Name {
    ghost use Rattle.std.specs.Prelude.{ℕ, List, IsTrue};
    ghost use Rattle.asm_text.specs.Bytes.{is_name};

    ghost Value = { List ℕ };

    ghost view = { λ n. n.text.bytes };

    ghost invariant = { λ n. IsTrue (is_name n.text.bytes) };
}

impl Name {
    /// The name of these bytes.
    #[tactic(auto, using(crate::proofs::Runs::ascii_name), unfolding(crate::specs::Bytes::is_name))]
    pub fn of(bytes: &[u8]) -> Name
        requires { IsTrue (is_name bytes.now) }
        ensures { result ≡ bytes.now }
    {
        // A name is ASCII, and at most as long as there is room.
        let Ok(text) = str::from_utf8(bytes) else {
            unreachable!()
        };
        let Ok(text) = ArrayString::from(text) else {
            unreachable!()
        };
        Name { text }
    }

    /// The same name once more.
    pub fn copy(&self) -> Name
        ensures { result ≡ self.now }
    {
        Name { text: self.text }
    }

    /// The name as text.
    pub fn as_str(&self) -> &str
        ensures text { result.now ≡ self.now }
        ensures name { IsTrue (is_name result.now) }
    {
        self.text.as_str()
    }
}

/// What a token is.
#[derive(Debug, Drop)]
pub enum TokenKind {
    /// A name, which may also be a mnemonic, a directive or a register word.
    Name(Name),
    /// A number, decimal, after `$` hexadecimal, after `%` binary, or one quoted character's code.
    Number(u32),
    /// One of `+ - * / & | ( ) < > , . :`, as its ASCII byte.
    Mark(u8),
}

/// A token and where it stands in its line. Columns are counted in bytes from 1.
#[derive(Debug, Drop)]
pub struct Token {
    /// The column of its first byte.
    pub column: u32,
    /// The column past its last byte.
    pub end: u32,
    /// What it is.
    pub kind: TokenKind,
}

/// The tokens of a line in order. A contract sees a list of tokens.
#[derive(Debug, Drop)]
pub struct TokenList {
    tokens: Vec<Token>,
}

impl Model for TokenList {
    ghost use Rattle.std.specs.Prelude.{List};
    ghost use Rattle.asm_text.specs.declared.answers.Token.{Token};

    ghost Value = { List Token };

    ghost view = { λ l. l.tokens.items };
}

impl TokenList {
    /// The list of these tokens.
    pub fn from_vec(tokens: Vec<Token>) -> TokenList
        ensures { result ≡ tokens.items }
    {
        TokenList { tokens }
    }

    /// The tokens in order.
    pub fn as_slice(&self) -> &[Token]
        ensures { result.now ≡ self.now }
    {
        self.tokens.as_slice()
    }
}

/// Why a line has no list of tokens. Columns are counted in bytes from 1.
#[derive(Clone, Copy, Debug, PartialEq, Eq, Error)]
pub enum TokenFault {
    /// At this column begins what is no token.
    #[error("no token at column {column}")]
    Bad { column: u32 },
    /// At this column begins a number above 4,294,967,295.
    #[error("a number too wide at column {column}")]
    Wide { column: u32 },
    /// Memory is missing. It says nothing of the line.
    #[error("out of memory")]
    Memory,
}

impl From<AllocError> for TokenFault {
    ghost use Rattle.std.specs.Prelude.{◌≡◌};
    ghost use Rattle.asm_text.specs.declared.answers.TokenFault.TheVariants.{Memory};

    ghost from_gives = { λ _ e. e ≡ Memory };

    fn from(_error: AllocError) -> TokenFault {
        TokenFault::Memory
    }
}

impl<T: Drop> From<AllocFailed<T>> for TokenFault {
    ghost use Rattle.std.specs.Prelude.{◌≡◌};
    ghost use Rattle.asm_text.specs.declared.answers.TokenFault.TheVariants.{Memory};

    ghost from_gives = { λ _ e. e ≡ Memory };

    fn from(_error: AllocFailed<T>) -> TokenFault {
        TokenFault::Memory
    }
}
