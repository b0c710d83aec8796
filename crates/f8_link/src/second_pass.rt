// The second pass over a module: the offset of each line, and what the labels stand for.
ghost use Rattle.std.specs.Prelude.{◌≡◌, ◌≤◌, ◌+◌, IfOk, OnOk, OnErr, option_copied};
ghost use Rattle.text_lines.specs.ReadErrors.{Says, StepsTo};
ghost use Rattle.f8_asm.specs.Statements.{statement_size};
ghost use Rattle.f8_link.specs.SecondPass.{no_layout, with_label, constant_at, filled, settle, line_settled, place};
ghost use Rattle.f8_link.specs.SecondPass.{place_lines, Ends};

use crate::answers::{ModAnswer, ModCause};
use crate::faults::{ModuleLineFault, ModuleLineStop, fault_at, fault_by};
use crate::lines::{LineTask, PlacedLine};
use crate::pieces::constant_of;
use crate::scope::{Scope, names_import, operand_found};
use crate::values::Named;
use asm_text::Name;
use f8_asm::{
    AsmCause, Formula, Operand, ParsedLine, Room, Single, Statement, Symbols, is_inside,
    statement_size,
};
use std::alloc::{AllocError, Global};
use std::marker::Model;

/// Where a module's bytes may lie, before its own room is known: at 65,536 offsets.
const EVERYWHERE: Room = Room {
    first: 0,
    last: u16::MAX,
};

/// What is known after some lines: the next offset, what the names so far stand for, and the lines with their
/// offsets. Each line's bytes end by offset 65,536.
#[derive(Drop)]
pub struct Layout {
    here: u32,
    names: Symbols<Named>,
    placed: Vec<PlacedLine>,
}

impl Model for Layout {
    ghost use Rattle.std.specs.Prelude.{◌≤◌, All};
    ghost use Rattle.f8_link.specs.SecondPass.{Layout, Ends};

    ghost Value = { Layout };

    ghost view = { λ s. record { here = s.here; names = s.names; placed = s.placed.items } };

    ghost invariant = { λ s. (s.here ≤ 65536) × All Ends s.placed.items };
}

impl Layout {
    ghost use Rattle.std.specs.Prelude.{◌≡◌, All, IfOk};
    ghost use Rattle.f8_link.specs.SecondPass.{Ends};

    /// Nothing is known before the first line.
    #[tactic(auto, unfolding(crate::specs::SecondPass::no_layout))]
    fn new(alloc: Global) -> Layout
        ensures { result ≡ no_layout }
    {
        Layout {
            here: 0,
            names: Symbols::new(alloc),
            placed: Vec::new(alloc),
        }
    }

    /// Lets a label's name stand for this.
    fn name(&mut self, alloc: Global, label: Option<&Name>, value: Named) -> Result<(), AllocError>
        ensures value { OnOk result
            (self.new ≡ with_label (option_copied label.entry) value self.old) }
        ensures same { OnErr result (self.new ≡ self.old) }
        ensures here { self.new.here ≡ self.old.here }
    {
        match label {
            Some(name) => self.names.define(alloc, name, value),
            None => Ok(()),
        }
    }

    /// The constant that `EQU` gives.
    fn constant_at(
        &self,
        alloc: Global,
        imports: &Symbols<usize>,
        operand: &Operand<Formula>,
    ) -> Result<Named, ModuleLineStop>
        ensures { Says result (constant_at imports.now self.now operand.now) }
    {
        if names_import(imports, &operand.value) {
            return Err(ModuleLineStop::Fault(fault_at(operand.column, ModCause::Shape)));
        }
        let none = Symbols::new(alloc);
        let scope = Scope {
            names: &self.names,
            imports: &none,
            offset: self.here,
        };
        let value = constant_of(operand_found(alloc, &scope, operand)?)?;
        Ok(Named::Constant(value))
    }

    /// Takes so many bytes.
    fn fill(
        &mut self,
        alloc: Global,
        label: Option<&Name>,
        column: Option<u32>,
        size: usize,
    ) -> Result<(), ModuleLineStop>
        ensures steps { StepsTo result self.new
            (filled (option_copied label.entry) column size self.old) }
        ensures ends { OnOk result (self.old.here + size ≤ 65536) }
    {
        if !is_inside(EVERYWHERE, self.here, size) {
            return Err(ModuleLineStop::Fault(ModuleLineFault {
                column,
                cause: ModCause::Asm(AsmCause::Outside),
            }));
        }
        self.name(alloc, label, Named::Offset(self.here))?;
        self.here += size as u32;
        Ok(())
    }

    /// Does what a statement says.
    #[tactic(auto, unfolding(crate::specs::SecondPass::settle))]
    fn settle(
        &mut self,
        alloc: Global,
        imports: &Symbols<usize>,
        line: &ParsedLine,
    ) -> Result<(), ModuleLineStop>
        ensures steps { StepsTo result self.new (settle imports.now self.old line.now) }
        ensures ends { self.old.here ≤ 65536
            → OnOk result (self.old.here + statement_size line.now.statement ≤ 65536) }
    {
        match &line.statement {
            Statement::One(Single::Equ, operand) => {
                let value = self.constant_at(alloc, imports, operand)?;
                self.name(alloc, line.label.as_ref(), value)?;
                Ok(())
            }
            other => self.fill(
                alloc,
                line.label.as_ref(),
                line.column,
                statement_size(other),
            ),
        }
    }

    /// Does what a line says.
    fn settle_line(
        &mut self,
        alloc: Global,
        imports: &Symbols<usize>,
        line: &LineTask,
    ) -> Result<(), ModAnswer>
        ensures steps { StepsTo result self.new (line_settled imports.now self.old line.now) }
        ensures ends { self.old.here ≤ 65536
            → OnOk result (Ends (record { offset = self.old.here; line = line.now })) }
    {
        match line {
            LineTask::Statement(line) => match self.settle(alloc, imports, line) {
                Ok(()) => Ok(()),
                Err(ModuleLineStop::Fault(fault)) => {
                    Err(ModAnswer::Fault(fault_by(line.number, line.end, fault)))
                }
                Err(ModuleLineStop::Memory) => Err(ModAnswer::Memory),
            },
            LineTask::Export(_, _, _) => Ok(()),
        }
    }

    /// Places one line more.
    #[tactic(auto, unfolding(crate::specs::SecondPass::place))]
    fn place(
        &mut self,
        alloc: Global,
        imports: &Symbols<usize>,
        line: LineTask,
    ) -> Result<(), ModAnswer>
        ensures { StepsTo result self.new (place imports.now self.old line) }
    {
        let offset = self.here;
        self.settle_line(alloc, imports, &line)?;
        self.placed.push(PlacedLine { offset, line })?;
        Ok(())
    }

    /// What the names stand for.
    pub fn names(&self) -> &Symbols<Named>
        ensures { result.now ≡ self.now.names }
    {
        &self.names
    }

    /// The lines with their offsets.
    pub fn placed(&self) -> &[PlacedLine]
        ensures value { result.now ≡ self.now.placed }
        ensures ends { All Ends result.now }
    {
        self.placed.as_slice()
    }
}

/// The layout of a module's lines, if its bytes end by offset 65,536 and its constants are constants.
pub fn place_lines(
    alloc: Global,
    imports: &Symbols<usize>,
    lines: Vec<LineTask>,
) -> Result<Layout, ModAnswer>
    ensures { Says result (place_lines imports.now no_layout lines.items) }
{
    let mut layout = Layout::new(alloc);
    for line in lines {
        layout.place(alloc, imports, line)?;
    }
    Ok(layout)
}
