// The tokens of a line.
ghost use Rattle.std.specs.Prelude.{◌≡◌, ◌≤◌, length, IfOk, IfErr, Ok};
ghost use Rattle.asm_text.specs.Tokens.{tokens_of, IsFaultOf};
ghost use Rattle.asm_text.specs.Grammar.{IsOnlyReading};

use crate::answers::{Token, TokenFault, TokenList};
use crate::front::{Lexeme, lexeme_at};
use std::alloc::Global;

/// The tokens of one line of assembly text, without its line end, in order.
///
/// Blanks and tabs may stand between tokens, and nothing need part them: each token is the longest that
/// stands there. A `;` outside quotes begins a comment, which goes on to the end and may hold any text.
///
/// # Errors
///
/// The line's first fault from the left. `Bad`: no token begins at the column, as at a name of more than 32
/// bytes, at `$` or `%` with no digit, at a quote that holds no printable ASCII character, at a carriage
/// return, or at a byte past ASCII. `Wide`: a number above 4,294,967,295 begins there. `Memory`: memory is
/// missing.
pub fn tokens(alloc: Global, line: &str) -> Result<TokenList, TokenFault>
    requires { length line.now ≤ 16777216 }
    ensures ok { IfOk result (λ list. tokens_of line.now ≡ Ok list) }
    ensures err { IfErr result (IsFaultOf (tokens_of line.now)) }
    ensures grammar { IsOnlyReading line.now (tokens_of line.now) }
{
    let mut found = Vec::new(alloc);
    let mut rest = line.as_bytes();
    let mut column = 1u32;
    loop {
        match lexeme_at(rest) {
            Lexeme::Blank => {
                rest = &rest[1..];
                column += 1;
            }
            Lexeme::End => return Ok(TokenList::from_vec(found)),
            Lexeme::Bad => return Err(TokenFault::Bad { column }),
            Lexeme::Wide => return Err(TokenFault::Wide { column }),
            Lexeme::Lexed { kind, length } => {
                let end = column + length as u32;
                found.push(Token { column, end, kind })?;
                rest = &rest[length..];
                column = end;
            }
        }
    }
}
