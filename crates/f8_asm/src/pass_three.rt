// The third pass: the bytes of each line at its address, with the values of all names.
ghost use Rattle.f8_asm.specs.Answers.{SaysOfBytes};
ghost use Rattle.text_lines.specs.ReadErrors.{Says, StepsTo};
ghost use Rattle.f8_asm.specs.ParsedLines.{parsed_bytes, emit_parsed, emit_all_parsed};
ghost use Rattle.f8_asm.specs.PassThree.{no_bytes};

use crate::answers::AsmAnswer;
use crate::code::bytes_of;
use crate::faults::LineStop;
use crate::formulas::Scope;
use crate::line::PlacedLine;
use crate::pass_two::Layout;
use crate::symbols::Symbols;
use crate::table::Table;
use crate::text::fault_by;
use std::alloc::Global;

/// The bytes of a line.
#[tactic(auto, unfolding(crate::specs::ParsedLines::parsed_bytes))]
fn line_bytes(
    alloc: Global,
    symbols: &Symbols<i64>,
    placed: &PlacedLine,
) -> Result<Vec<u8>, LineStop>
    ensures { SaysOfBytes result (parsed_bytes symbols.now placed.now) }
{
    let scope = Scope {
        symbols,
        address: placed.address,
    };
    bytes_of(alloc, &scope, &placed.line.statement)
}

/// Puts the bytes of one line more.
#[tactic(auto, unfolding(crate::specs::ParsedLines::emit_parsed))]
fn emit(
    alloc: Global,
    symbols: &Symbols<i64>,
    table: &mut Table,
    placed: &PlacedLine,
) -> Result<(), AsmAnswer>
    ensures { StepsTo result table.new (emit_parsed symbols.now table.old placed.now) }
{
    match line_bytes(alloc, symbols, placed) {
        Ok(bytes) => {
            table.write(placed.address, bytes.as_slice());
            Ok(())
        }
        Err(LineStop::Fault(fault)) => {
            Err(AsmAnswer::Fault(fault_by(placed.line.number, placed.line.end, fault)))
        }
        Err(LineStop::Memory) => Err(AsmAnswer::Memory),
    }
}

/// The bytes of lines at their addresses.
fn emit_all(alloc: Global, symbols: &Symbols<i64>, lines: &[PlacedLine]) -> Result<Table, AsmAnswer>
    ensures { Says result (emit_all_parsed symbols.now (no_bytes 65536) lines.now) }
{
    let mut table = Table::new(alloc)?;
    for placed in lines {
        emit(alloc, symbols, &mut table, placed)?;
    }
    Ok(table)
}

/// The bytes of all lines of a layout.
pub fn emit_lines(alloc: Global, layout: &Layout) -> Result<Table, AsmAnswer>
    ensures { Says result
        (emit_all_parsed layout.now.names (no_bytes 65536) layout.now.placed) }
{
    emit_all(alloc, layout.symbols(), layout.placed())
}
