// The third pass over a module: its bytes, what linking puts into them, and what its exports stand for.
ghost use Rattle.std.specs.Prelude.{◌≡◌, ◌≤◌, ◌+◌, All, IfOk, map};
ghost use Rattle.text_lines.specs.ReadErrors.{Says, StepsTo};
ghost use Rattle.f8_asm.specs.Names.{value_of};
ghost use Rattle.f8_asm.specs.Statements.{statement_size};
ghost use Rattle.f8_link.specs.SecondPass.{Ends};
ghost use Rattle.f8_link.specs.ThirdPass.{no_code, line_piece, exported, emit, emit_lines};

use crate::answers::{ModAnswer, ModCause, ModFault};
use crate::faults::{ModuleLineStop, fault_by};
use crate::lines::{LineTask, PlacedLine};
use crate::objects::Object;
use crate::pieces::{Piece, piece_of};
use crate::scope::Scope;
use crate::second_pass::Layout;
use crate::values::Named;
use asm_text::Name;
use f8_asm::{AsmCause, ParsedLine, Symbols};
use std::alloc::{AllocError, Global};
use std::marker::Model;

/// What some lines give: bytes with what linking puts into them, and exports.
#[derive(Drop)]
pub struct Code {
    piece: Piece,
    exports: Vec<(Name, Named)>,
}

impl Model for Code {
    ghost use Rattle.f8_link.specs.ThirdPass.{Code};

    ghost Value = { Code };

    ghost view = { λ s. record { bytes = s.piece.bytes; exports = s.exports.items; fixups = s.piece.fixups } };
}

impl Code {
    ghost use Rattle.std.specs.Prelude.{◌≡◌, IfOk};
    ghost use Rattle.f8_link.specs.ThirdPass.{object_of};

    /// Nothing before the first line.
    #[tactic(auto, unfolding(crate::specs::ThirdPass::no_code))]
    fn new(alloc: Global) -> Code
        ensures { result ≡ no_code }
    {
        Code {
            piece: Piece::empty(alloc),
            exports: Vec::new(alloc),
        }
    }

    /// Takes a name that is exported, if the module gives it.
    fn export(
        &mut self,
        names: &Symbols<Named>,
        number: u32,
        column: u32,
        name: &Name,
    ) -> Result<(), ModAnswer>
        ensures { StepsTo result self.new
            (exported self.old number column name.now (value_of names.now name.now)) }
    {
        let Some(named) = names.value_of(name) else {
            return Err(ModAnswer::Fault(ModFault {
                line: number,
                column,
                cause: ModCause::Asm(AsmCause::Undefined),
            }));
        };
        self.exports.push((name.copy(), named))?;
        Ok(())
    }

    /// Takes one line more.
    #[tactic(auto, unfolding(crate::specs::ThirdPass::emit))]
    fn emit(
        &mut self,
        alloc: Global,
        names: &Symbols<Named>,
        imports: &Symbols<usize>,
        placed: &PlacedLine,
    ) -> Result<(), ModAnswer>
        requires { Ends placed.now }
        ensures { StepsTo result self.new (emit names.now imports.now self.old placed.now) }
    {
        match &placed.line {
            LineTask::Statement(line) => {
                let scope = Scope {
                    names,
                    imports,
                    offset: placed.offset,
                };
                match line_piece(alloc, &scope, line) {
                    Ok(piece) => {
                        self.piece.join(piece)?;
                        Ok(())
                    }
                    Err(ModuleLineStop::Fault(fault)) => {
                        Err(ModAnswer::Fault(fault_by(line.number, line.end, fault)))
                    }
                    Err(ModuleLineStop::Memory) => Err(ModAnswer::Memory),
                }
            }
            LineTask::Export(number, column, name) => self.export(names, *number, *column, name),
        }
    }

    /// The object of all lines and of the imports. The one error is want of memory.
    pub fn into_object(self, alloc: Global, imports: &Symbols<usize>) -> Result<Object, AllocError>
        ensures { IfOk result (λ object. object ≡ object_of self imports.now) }
    {
        let imports = names_of(alloc, imports)?;
        let (bytes, fixups) = self.piece.into_parts();
        Ok(Object::of(bytes, self.exports, imports, fixups))
    }
}

/// The names of imports in their order.
fn names_of(alloc: Global, imports: &Symbols<usize>) -> Result<Vec<Name>, AllocError>
    ensures { IfOk result (λ names. names.items ≡ map (λ i. i.0) imports.now) }
{
    let mut names = Vec::new(alloc);
    for k in 0..imports.len() {
        if let Some((name, _number)) = imports.get(k) {
            names.push(Name::of(name.as_bytes()))?;
        }
    }
    Ok(names)
}

/// The bytes of a statement's line.
#[tactic(auto, unfolding(crate::specs::ThirdPass::line_piece))]
fn line_piece(alloc: Global, scope: &Scope, line: &ParsedLine) -> Result<Piece, ModuleLineStop>
    requires { scope.now.offset + statement_size line.now.statement ≤ 65536 }
    ensures { Says result
        (line_piece scope.now.names.now scope.now.imports.now scope.now.offset line.now) }
{
    piece_of(alloc, scope, &line.statement)
}

/// What the lines of a module give.
fn emit_all(
    alloc: Global,
    names: &Symbols<Named>,
    imports: &Symbols<usize>,
    lines: &[PlacedLine],
) -> Result<Code, ModAnswer>
    requires { All Ends lines.now }
    ensures { Says result (emit_lines names.now imports.now no_code lines.now) }
{
    let mut code = Code::new(alloc);
    for placed in lines {
        code.emit(alloc, names, imports, placed)?;
    }
    Ok(code)
}

/// What the lines of a layout give.
pub fn emit_lines(
    alloc: Global,
    layout: &Layout,
    imports: &Symbols<usize>,
) -> Result<Code, ModAnswer>
    ensures { Says result (emit_lines layout.now.names imports.now no_code layout.now.placed) }
{
    emit_all(alloc, layout.names(), imports, layout.placed())
}
