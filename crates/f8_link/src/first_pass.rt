// The first pass over a module: the tokens of each line, what they make, and whether a name is given twice.
ghost use Rattle.std.specs.Prelude.{◌≡◌, ◌≤◌, ◌<◌, ◌+◌, ℕ, length, drop, OnOk};
ghost use Rattle.text_lines.specs.Lines.{lines};
ghost use Rattle.text_lines.specs.ReadErrors.{Says, StepsTo};
ghost use Rattle.f8_link.specs.Directives.{names_taken};
ghost use Rattle.f8_link.specs.FirstPass.{no_reading, with_export, with_import, name_taken, statement_taken};
ghost use Rattle.f8_link.specs.FirstPass.{tokens_taken, read_line, read_lines};

use crate::directives::{Directive, directive_of, name_at, statement_line};
use crate::lines::LineTask;
use asm_text::{Name, Token};
use f8_asm::{
    AsmAnswer, AsmCause, LineFault, LineStop, Symbols, comma, end_of, fault_by, line_tokens,
    name_label,
};
use std::alloc::{AllocError, Global};
use std::marker::Model;
use text_lines::first_line;

/// What is known after some lines: how many they are, the labels and imports so far, the imports with their numbers,
/// and what is left to do for each statement and each name that is exported.
#[derive(Drop)]
pub struct Reading {
    count: u32,
    known: Symbols<i64>,
    imports: Symbols<usize>,
    lines: Vec<LineTask>,
}

impl Model for Reading {
    ghost use Rattle.f8_link.specs.FirstPass.{Reading};

    ghost Value = { Reading };

    ghost view = { λ s. record { count = s.count; known = s.known; imports = s.imports; lines = s.lines.items } };
}

impl Reading {
    /// Nothing is known before the first line.
    #[tactic(auto, unfolding(crate::specs::FirstPass::no_reading))]
    fn new(alloc: Global) -> Reading
        ensures { result ≡ no_reading }
    {
        Reading {
            count: 0,
            known: Symbols::new(alloc),
            imports: Symbols::new(alloc),
            lines: Vec::new(alloc),
        }
    }

    /// Takes a name that line `number` exports at a column.
    fn take_export(&mut self, number: u32, column: u32, name: &Name) -> Result<(), LineStop>
        ensures steps { StepsTo result self.new
            (name_taken Directive.Export number self.old column name.now) }
        ensures count { self.new.count ≡ self.old.count }
    {
        self.lines
            .push(LineTask::Export(number, column, name.copy()))?;
        Ok(())
    }

    /// Takes a name that a line imports at a column, if it is new.
    fn take_import(&mut self, alloc: Global, column: u32, name: &Name) -> Result<(), LineStop>
        ensures steps { (number : ℕ) → StepsTo result self.new
            (name_taken Directive.Import number self.old column name.now) }
        ensures count { self.new.count ≡ self.old.count }
    {
        if self.known.value_of(name).is_some() {
            return Err(LineStop::Fault(LineFault {
                column: Some(column),
                cause: AsmCause::Twice,
            }));
        }
        let number = self.imports.len();
        self.known.define(alloc, name, 0)?;
        self.imports.define(alloc, name, number)?;
        Ok(())
    }

    /// Takes a name that a directive of line `number` has at a column.
    fn take_name(
        &mut self,
        alloc: Global,
        directive: Directive,
        number: u32,
        column: u32,
        name: &Name,
    ) -> Result<(), LineStop>
        ensures steps { StepsTo result self.new
            (name_taken directive number self.old column name.now) }
        ensures count { self.new.count ≡ self.old.count }
    {
        match directive {
            Directive::Export => self.take_export(number, column, name),
            Directive::Import => self.take_import(alloc, column, name),
        }
    }

    /// Takes the names behind a directive.
    fn take_names(
        &mut self,
        alloc: Global,
        directive: Directive,
        number: u32,
        tokens: &[Token],
    ) -> Result<(), LineStop>
        ensures steps { StepsTo result self.new
            (names_taken (name_taken directive number) self.old tokens.now) }
        ensures count { self.new.count ≡ self.old.count }
    {
        let mut rest = tokens;
        loop {
            let (column, name, behind) = name_at(rest)?;
            self.take_name(alloc, directive, number, column, name)?;
            if behind.is_empty() {
                return Ok(());
            }
            rest = comma(behind)?;
        }
    }

    /// Takes a line with a statement.
    fn take_statement(
        &mut self,
        alloc: Global,
        number: u32,
        tokens: &[Token],
    ) -> Result<(), LineStop>
        ensures steps { StepsTo result self.new (statement_taken number self.old tokens.now) }
        ensures count { self.new.count ≡ self.old.count }
    {
        name_label(alloc, &mut self.known, tokens)?;
        let line = statement_line(alloc, number, tokens)?;
        self.lines.push(LineTask::Statement(line))?;
        Ok(())
    }

    /// Takes the tokens of one line more.
    #[tactic(auto, unfolding(crate::specs::FirstPass::tokens_taken))]
    fn take(&mut self, alloc: Global, number: u32, tokens: &[Token]) -> Result<(), LineStop>
        ensures steps { StepsTo result self.new (tokens_taken number self.old tokens.now) }
        ensures count { self.new.count ≡ self.old.count }
    {
        match directive_of(tokens) {
            Some(directive) => self.take_names(alloc, directive, number, behind_first(tokens)),
            None => self.take_statement(alloc, number, tokens),
        }
    }

    /// Reads one line more.
    #[tactic(auto, unfolding(crate::specs::FirstPass::read_line))]
    fn read_line(&mut self, alloc: Global, bytes: &[u8]) -> Result<(), AsmAnswer>
        requires line { length bytes.now ≤ 16777216 }
        requires lines { self.old.count ≤ 16777216 }
        ensures steps { StepsTo result self.new (read_line self.old bytes.now) }
        ensures count { OnOk result (self.new.count ≡ self.old.count + 1) }
    {
        let number = self.count + 1;
        let tokens = line_tokens(alloc, number, bytes)?;
        let tokens = tokens.as_slice();
        match self.take(alloc, number, tokens) {
            Ok(()) => {
                self.count = number;
                Ok(())
            }
            Err(LineStop::Fault(fault)) => {
                Err(AsmAnswer::Fault(fault_by(number, end_of(tokens), fault)))
            }
            Err(LineStop::Memory) => Err(AsmAnswer::Memory),
        }
    }

    /// The imports with their numbers, and the lines.
    pub fn into_parts(self) -> (Symbols<usize>, Vec<LineTask>)
        ensures imports { result.0 ≡ self.imports }
        ensures lines { result.1.items ≡ self.lines }
    {
        (self.imports, self.lines)
    }
}

/// The tokens behind the first.
fn behind_first(tokens: &[Token]) -> &[Token]
    ensures { result.now ≡ drop 1 tokens.now }
{
    match tokens.split_first() {
        Some((_, rest)) => rest,
        None => tokens,
    }
}

/// The lines of a module's text, if each makes a statement or shares names, and no name is given twice.
pub fn read_lines(alloc: Global, text: &[u8]) -> Result<Reading, AsmAnswer>
    requires { length text.now ≤ 16777216 }
    ensures { Says result (read_lines no_reading (lines text.now)) }
{
    let mut reading = Reading::new(alloc);
    let mut rest = text;
    while !rest.is_empty() {
        let (line, behind) = first_line(rest);
        reading.read_line(alloc, line)?;
        rest = behind;
    }
    Ok(reading)
}
