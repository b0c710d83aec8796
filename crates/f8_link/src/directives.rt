// Lines that export and import names, and the words that a module's other lines may not have.
ghost use Rattle.std.specs.Prelude.{◌≡◌, ◌<◌, length, IfOk};
ghost use Rattle.text_lines.specs.ReadErrors.{Says};
ghost use Rattle.f8_asm.specs.ParsedLines.{parsed};
ghost use Rattle.f8_link.specs.Directives.{directive_word, directive_of, name_at, name_at_seen, is_stray, stray_in};
ghost use Rattle.f8_link.specs.Directives.{stray, first_fault, unless_stray};

use asm_text::{Name, Token, TokenKind};
use f8_asm::{LineFault, LineStop, ParsedLine, form, is_reserved, is_word, parsed};
use std::alloc::Global;

/// What a line does that is no statement.
#[derive(Clone, Copy, Debug, PartialEq, Eq)]
pub enum Directive {
    Export,
    Import,
}

/// The directive that a word is, in either case.
fn directive_word(name: &[u8]) -> Option<Directive>
    ensures { result ≡ directive_word name.now }
{
    if is_word(name, b"EXPORT") {
        Some(Directive::Export)
    } else if is_word(name, b"IMPORT") {
        Some(Directive::Import)
    } else {
        None
    }
}

/// The directive that a line begins with.
pub fn directive_of(tokens: &[Token]) -> Option<Directive>
    ensures { result ≡ directive_of tokens.now }
{
    let (first, _) = tokens.split_first()?;
    match &first.kind {
        TokenKind::Name(name) => directive_word(name.as_str().as_bytes()),
        _ => None,
    }
}

/// A name at the front of tokens with its column, and the tokens behind it.
pub fn name_at(tokens: &[Token]) -> Result<(u32, &Name, &[Token]), LineFault>
    ensures value { name_at_seen result ≡ name_at tokens.now }
    ensures consumes { IfOk result (λ r. length r.2.now < length tokens.now) }
{
    let Some((first, behind)) = tokens.split_first() else {
        return Err(form(None));
    };
    match &first.kind {
        TokenKind::Name(name) => {
            let text = name.as_str().as_bytes();
            if is_reserved(text) || directive_word(text).is_some() {
                return Err(form(Some(first.column)));
            }
            Ok((first.column, name, behind))
        }
        _ => Err(form(Some(first.column))),
    }
}

/// Whether a word may not stand in a statement.
fn is_stray(name: &[u8]) -> bool
    ensures { result ≡ is_stray name.now }
{
    is_word(name, b"ORG") || directive_word(name).is_some()
}

/// Whether a token is such a word.
fn stray_in(kind: &TokenKind) -> bool
    ensures { result ≡ stray_in kind.now }
{
    match kind {
        TokenKind::Name(name) => is_stray(name.as_str().as_bytes()),
        _ => false,
    }
}

/// Where the first word stands that a statement may not have.
fn stray(tokens: &[Token]) -> Option<u32>
    ensures { result ≡ stray tokens.now }
{
    for token in tokens {
        if stray_in(&token.kind) {
            return Some(token.column);
        }
    }
    None
}

/// The fault of a line, or that of a word that it may not have, whichever stands first.
fn first_fault(stray: Option<u32>, fault: LineFault) -> LineFault
    ensures { result ≡ first_fault stray fault }
{
    match stray {
        Some(column) if !fault.column.is_some_and(|at| at < column) => form(Some(column)),
        _ => fault,
    }
}

/// The line of these tokens, if they make a statement and have no word that a module's may not have.
pub fn statement_line(alloc: Global, number: u32, tokens: &[Token]) -> Result<ParsedLine, LineStop>
    ensures { Says result (unless_stray (stray tokens.now) (parsed number tokens.now)) }
{
    let stray = stray(tokens);
    match parsed(alloc, number, tokens) {
        Ok(line) => match stray {
            Some(column) => Err(LineStop::Fault(form(Some(column)))),
            None => Ok(line),
        },
        Err(LineStop::Fault(fault)) => Err(LineStop::Fault(first_fault(stray, fault))),
        Err(LineStop::Memory) => Err(LineStop::Memory),
    }
}
