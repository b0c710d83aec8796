// The second pass: the address of each line, the values of names, and which addresses are filled.
ghost use Rattle.std.specs.Prelude.{◌≡◌, ◌≤◌, ◌+◌, IfOk, OnOk, option_copied};
ghost use Rattle.text_lines.specs.ReadErrors.{Says, StepsTo};
ghost use Rattle.f8_asm.specs.ParsedLines.{settle_parsed, place_parsed, place_all_parsed};
ghost use Rattle.f8_asm.specs.PassTwo.{is_inside, fits, with_label, layout_filled, layout_after, no_layout};

use crate::answers::{AsmAnswer, AsmCause, Room};
use crate::faults::{LineFault, LineStop};
use crate::formulas::Scope;
use crate::judging::{operand_value, unsigned_value};
use crate::line::{ParsedLine, PlacedLine};
use crate::marks::{is_free, mark, no_marks};
use crate::operands::{Effect, effect_of};
use crate::symbols::Symbols;
use crate::text::fault_by;
use asm_text::Name;
use std::alloc::{AllocError, Global};
use std::marker::Model;

/// Whether all of so many bytes lie in the room.
pub fn is_inside(room: Room, here: u32, size: usize) -> bool
    requires { here ≤ 65536 }
    ensures { result ≡ is_inside room here size }
{
    let end = u32::from(room.last) + 1;
    size == 0 || (u32::from(room.first) <= here && here <= end && size <= (end - here) as usize)
}

/// What is known after some lines: the next address, the names so far, the filled addresses, and the lines with
/// their addresses.
#[derive(Drop)]
pub struct Layout {
    here: u32,
    symbols: Symbols<i64>,
    filled: Vec<bool>,
    placed: Vec<PlacedLine>,
}

impl Model for Layout {
    ghost use Rattle.std.specs.Prelude.{◌≡◌, ◌≤◌, length};
    ghost use Rattle.f8_asm.specs.PassTwo.{Layout};
    ghost use Rattle.f8_asm.specs.declared.line.PlacedLine.{PlacedLine};

    ghost Value = { Layout PlacedLine };

    ghost view = { λ s. record { here = s.here; names = s.symbols; filled = s.filled.items; placed = s.placed.items } };

    ghost invariant = { λ s. (s.here ≤ 65536) × (length s.filled.items ≡ 65536) };
}

impl Layout {
    /// Nothing is known before the first line.
    fn new(alloc: Global) -> Result<Layout, AllocError>
        ensures { IfOk result (λ s. s ≡ no_layout 65536) }
    {
        Ok(Layout {
            here: 0,
            symbols: Symbols::new(alloc),
            filled: no_marks(alloc)?,
            placed: Vec::new(alloc),
        })
    }

    /// Gives a label's name its value.
    fn name(&mut self, alloc: Global, label: Option<&Name>, value: i64) -> Result<(), AllocError>
        ensures value { OnOk result (self.new
            ≡ with_label (option_copied label.entry) value self.old) }
        ensures here { self.new.here ≡ self.old.here }
    {
        match label {
            Some(name) => self.symbols.define(alloc, name, value),
            None => Ok(()),
        }
    }

    /// Whether so many bytes lie in the room, on addresses that are free.
    fn fits(&self, room: Room, column: Option<u32>, size: usize) -> Result<(), LineFault>
        ensures value { result ≡ fits room column size self.now }
        ensures end { OnOk result (self.now.here + size ≤ 65536) }
    {
        if !is_inside(room, self.here, size) {
            return Err(LineFault {
                column,
                cause: AsmCause::Outside,
            });
        }
        if !is_free(self.filled.as_slice(), self.here as usize, size) {
            return Err(LineFault {
                column,
                cause: AsmCause::Overlap,
            });
        }
        Ok(())
    }

    /// Takes so many bytes.
    fn fill(&mut self, size: usize)
        requires { self.old.here + size ≤ 65536 }
        ensures { self.new ≡ layout_filled size self.old }
    {
        mark(self.filled.as_mut_slice(), self.here as usize, size);
        self.here += size as u32;
    }

    /// Does what a statement does.
    fn layout_after(
        &mut self,
        alloc: Global,
        room: Room,
        label: Option<&Name>,
        column: Option<u32>,
        effect: Effect,
    ) -> Result<(), LineStop>
        ensures { StepsTo result self.new
            (layout_after room (option_copied label.entry) column self.old effect) }
    {
        match effect {
            Effect::Names(operand) => {
                let value = operand_value(operand)?;
                self.name(alloc, label, value)?;
                Ok(())
            }
            Effect::Moves(operand) => {
                let address = unsigned_value(u16::MAX, operand)?;
                self.name(alloc, label, i64::from(self.here))?;
                self.here = u32::from(address);
                Ok(())
            }
            Effect::Fills(size) => {
                self.fits(room, column, size)?;
                self.name(alloc, label, i64::from(self.here))?;
                self.fill(size);
                Ok(())
            }
        }
    }

    /// Does what a line says.
    #[tactic(auto, unfolding(crate::specs::ParsedLines::settle_parsed))]
    fn settle(&mut self, alloc: Global, room: Room, line: &ParsedLine) -> Result<(), LineStop>
        ensures { StepsTo result self.new (settle_parsed room self.old line.now) }
    {
        let scope = Scope {
            symbols: &self.symbols,
            address: self.here,
        };
        let effect = effect_of(alloc, &scope, &line.statement)?;
        self.layout_after(alloc, room, line.label.as_ref(), line.column, effect)
    }

    /// Places one line more.
    #[tactic(auto, unfolding(crate::specs::ParsedLines::place_parsed))]
    fn place(&mut self, alloc: Global, room: Room, line: ParsedLine) -> Result<(), AsmAnswer>
        ensures { StepsTo result self.new (place_parsed room self.old line) }
    {
        let address = self.here;
        match self.settle(alloc, room, &line) {
            Ok(()) => {
                self.placed.push(PlacedLine { address, line })?;
                Ok(())
            }
            Err(LineStop::Fault(fault)) => {
                Err(AsmAnswer::Fault(fault_by(line.number, line.end, fault)))
            }
            Err(LineStop::Memory) => Err(AsmAnswer::Memory),
        }
    }

    /// The lines with their addresses.
    pub fn placed(&self) -> &[PlacedLine]
        ensures { result.now ≡ self.now.placed }
    {
        self.placed.as_slice()
    }

    /// The names with their values.
    pub fn symbols(&self) -> &Symbols<i64>
        ensures { result.now ≡ self.now.names }
    {
        &self.symbols
    }

    /// The names with their values, where nothing else is wanted any more.
    pub fn into_symbols(self) -> Symbols<i64>
        ensures { result ≡ self.names }
    {
        self.symbols
    }
}

/// The layout of lines, if all bytes lie in the room and on addresses of their own.
pub fn place_lines(alloc: Global, room: Room, lines: Vec<ParsedLine>) -> Result<Layout, AsmAnswer>
    ensures { Says result (place_all_parsed room (no_layout 65536) lines.items) }
{
    let mut layout = Layout::new(alloc)?;
    for line in lines {
        layout.place(alloc, room, line)?;
    }
    Ok(layout)
}
