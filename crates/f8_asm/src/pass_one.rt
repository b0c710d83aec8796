// The first pass: the tokens of each line, the statement that they make, and whether a name is given twice.
ghost use Rattle.std.specs.Prelude.{◌≡◌, ◌≤◌, ◌<◌, ◌+◌, length};
ghost use Rattle.text_lines.specs.ReadErrors.{Says, StepsTo};
ghost use Rattle.f8_asm.specs.ParsedLines.{names_after, parsed, parse_tokens, parse_line, parse_lines, no_parsing};
ghost use Rattle.f8_asm.specs.Statements.{label_of};
ghost use Rattle.text_lines.specs.Lines.{lines};

use crate::answers::{AsmAnswer, AsmCause};
use crate::faults::{LineFault, LineStop};
use crate::grammar::column_of;
use crate::line::ParsedLine;
use crate::statements::{behind_label, label_of, statement};
use crate::symbols::Symbols;
use crate::text::{end_of, fault_by, line_tokens};
use asm_text::{Name, Token};
use std::alloc::Global;
use std::marker::Model;
use text_lines::first_line;

/// The name of a line's label, if it has one.
fn label_name(tokens: &[Token]) -> Option<Name>
    ensures { result ≡ label_of tokens.now }
{
    Some(label_of(tokens)?.copy())
}

/// A line of these tokens, if they make a statement.
#[tactic(auto, unfolding(crate::specs::ParsedLines::parsed))]
pub fn parsed(alloc: Global, number: u32, tokens: &[Token]) -> Result<ParsedLine, LineStop>
    ensures { Says result (parsed number tokens.now) }
{
    let label = label_name(tokens);
    let rest = behind_label(tokens);
    let statement = statement(alloc, label.is_some(), rest)?;
    Ok(ParsedLine {
        number,
        end: end_of(tokens),
        label,
        column: column_of(rest),
        statement,
    })
}

/// Gives the name of a line's label, if it has one and that is new.
pub fn name_label(
    alloc: Global,
    symbols: &mut Symbols<i64>,
    tokens: &[Token],
) -> Result<(), LineStop>
    ensures { StepsTo result symbols.new
        (names_after symbols.old tokens.now (label_of tokens.now)) }
{
    let Some(name) = label_of(tokens) else {
        return Ok(());
    };
    if symbols.value_of(name).is_some() {
        return Err(LineStop::Fault(LineFault {
            column: column_of(tokens),
            cause: AsmCause::Twice,
        }));
    }
    symbols.define(alloc, name, 0)?;
    Ok(())
}

/// What is known after some lines: the names, without values yet, and the lines.
#[derive(Drop)]
pub struct Parsing {
    symbols: Symbols<i64>,
    lines: Vec<ParsedLine>,
}

impl Model for Parsing {
    ghost use Rattle.f8_asm.specs.ParsedLines.{Parsing};

    ghost Value = { Parsing };

    ghost view = { λ p. record { names = p.symbols; lines = p.lines.items } };
}

impl Parsing {
    /// Nothing is known before the first line.
    #[tactic(auto, unfolding(crate::specs::ParsedLines::no_parsing))]
    fn new(alloc: Global) -> Parsing
        ensures { result ≡ no_parsing }
    {
        Parsing {
            symbols: Symbols::new(alloc),
            lines: Vec::new(alloc),
        }
    }

    /// Takes the tokens of one line more.
    fn take(&mut self, alloc: Global, number: u32, tokens: &[Token]) -> Result<(), LineStop>
        ensures { StepsTo result self.new (parse_tokens number self.old tokens.now) }
    {
        name_label(alloc, &mut self.symbols, tokens)?;
        let line = parsed(alloc, number, tokens)?;
        self.lines.push(line)?;
        Ok(())
    }

    /// Reads one line more.
    #[tactic(auto, unfolding(crate::specs::ParsedLines::parse_line))]
    fn read_line(&mut self, alloc: Global, bytes: &[u8]) -> Result<(), AsmAnswer>
        requires line { length bytes.now ≤ 16777216 }
        requires lines { length self.old.lines ≤ 16777216 }
        ensures { StepsTo result self.new (parse_line self.old bytes.now) }
    {
        let number = self.lines.len() as u32 + 1;
        let tokens = line_tokens(alloc, number, bytes)?;
        let tokens = tokens.as_slice();
        match self.take(alloc, number, tokens) {
            Ok(()) => Ok(()),
            Err(LineStop::Fault(fault)) => {
                Err(AsmAnswer::Fault(fault_by(number, end_of(tokens), fault)))
            }
            Err(LineStop::Memory) => Err(AsmAnswer::Memory),
        }
    }

    /// The lines.
    pub fn into_lines(self) -> Vec<ParsedLine>
        ensures { result.items ≡ self.lines }
    {
        self.lines
    }
}

/// The lines of a text, if each makes a statement and no name is given twice.
pub fn parse_lines(alloc: Global, text: &[u8]) -> Result<Parsing, AsmAnswer>
    requires { length text.now ≤ 16777216 }
    ensures { Says result (parse_lines no_parsing (lines text.now)) }
{
    let mut parsing = Parsing::new(alloc);
    let mut rest = text;
    while !rest.is_empty() {
        let (line, behind) = first_line(rest);
        parsing.read_line(alloc, line)?;
        rest = behind;
    }
    Ok(parsing)
}
