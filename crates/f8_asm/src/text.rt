// The tokens of a line.
ghost use Rattle.std.specs.Prelude.{◌≡◌, ◌≤◌, length};
ghost use Rattle.text_lines.specs.ReadErrors.{Says};
ghost use Rattle.text_lines.specs.declared.read_error.ReadError.TheVariants.{Fault};
ghost use Rattle.f8_asm.specs.PassOne.{end_of, line_tokens, fault_by};

use crate::answers::{AsmAnswer, AsmCause, AsmFault};
use crate::faults::LineFault;
use asm_text::{Token, TokenFault, TokenList, tokens};
use std::alloc::Global;

/// The column past the last token.
pub fn end_of(tokens: &[Token]) -> u32
    ensures { result ≡ end_of tokens.now }
{
    match tokens.last() {
        Some(token) => token.end,
        None => 1,
    }
}

/// A line's fault with the line's number. Where no token is left it stands past the last, where the line ends.
pub fn fault_by(number: u32, end: u32, fault: LineFault) -> AsmFault
    ensures { result ≡ fault_by number end fault }
{
    AsmFault {
        line: number,
        column: fault.column.unwrap_or(end),
        cause: fault.cause,
    }
}

/// A fault of a line with its place.
fn fault(line: u32, column: u32, cause: AsmCause) -> AsmAnswer
    ensures { result ≡ Fault (record { line = line; column = column; cause = cause }) }
{
    AsmAnswer::Fault(AsmFault {
        line,
        column,
        cause,
    })
}

/// The tokens of a line, if it is UTF-8.
#[tactic(auto, unfolding(crate::specs::PassOne::line_tokens))]
pub fn line_tokens(alloc: Global, number: u32, bytes: &[u8]) -> Result<TokenList, AsmAnswer>
    requires { length bytes.now ≤ 16777216 }
    ensures { Says result (line_tokens number bytes.now) }
{
    let Ok(line) = std::str::from_utf8(bytes) else {
        return Err(fault(number, 1, AsmCause::Utf8));
    };
    match tokens(alloc, line) {
        Ok(list) => Ok(list),
        Err(TokenFault::Bad { column }) => Err(fault(number, column, AsmCause::Token)),
        Err(TokenFault::Wide { column }) => Err(fault(number, column, AsmCause::Range)),
        Err(TokenFault::Memory) => Err(AsmAnswer::Memory),
    }
}
