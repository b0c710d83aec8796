// The trace of a text, line by line.
ghost use Rattle.std.specs.Prelude.{◌≤◌, IfOk, length};
ghost use Rattle.text_lines.specs.ReadErrors.{OnMemory, Says, StepsTo};
ghost use Rattle.text_lines.specs.Lines.{lines};
ghost use Rattle.bus_audit.specs.Answers.{steps_of};
ghost use Rattle.bus_audit.specs.PlainSteps.{HaveBytes};
ghost use Rattle.bus_audit.specs.TraceFaults.{TakesMemory, TellsFault, TellsStep};
ghost use Rattle.bus_audit.specs.TraceText.{read_in, trace_of, with_read};

use super::spelled::step_of;
use super::trace::TraceList;
use std::alloc::Global;
use text_lines::{ReadError, first_line};
use thiserror::Error;

/// A line that begins with `bus ` and spells no bus step: the first such one. Lines are counted from 1, those that aren't read too.
#[derive(Clone, Copy, Debug, PartialEq, Eq, Error)]
#[error("line {line}: no bus step")]
pub struct TraceFault {
    pub line: u32,
}

/// Why a text is no trace: its first fault, or that memory is missing, at a line that tells of a step, before which no
/// line is at fault.
pub type TraceAnswer = ReadError<TraceFault>;

/// Reads one line more. Memory is wanting only where it tells of a step.
fn read_line(trace: &mut TraceList, line: &[u8]) -> Result<(), TraceAnswer>
    requires room { trace.old.after ≤ 16777216 }
    ensures steps { StepsTo result trace.new (with_read trace.old (read_in line.now)) }
    ensures memory { OnMemory result (TellsStep line.now) }
{
    let Some(text) = line.strip_prefix(b"bus ") else {
        trace.skip_line();
        return Ok(());
    };
    let Some(step) = step_of(text) else {
        return Err(ReadError::Fault(TraceFault {
            line: trace.after(),
        }));
    };
    trace.push(step)?;
    Ok(())
}

/// The trace of a text: the steps that its lines tell of, each with its line, and the line behind the last. Lines that begin with the
/// four bytes `bus ` are read, and all others are skipped, whatever their bytes. A line that is read has the form `bus RR S BB WHO` or
/// `bus RR S -- fault`: two hexadecimal digits of a code below 20, `S` for a short step or `L` for a long one, two digits of the byte,
/// and `cpu`, `-` for nobody or the number of a socket from 0 to 15. Digits are capitals, single blanks part words, and nothing stands
/// before or behind (this project's own). Memory is taken for the steps alone.
///
/// # Errors
///
/// The first line that begins so and isn't of this form, or `Memory`: memory is missing.
pub fn read_trace(alloc: Global, text: &[u8]) -> Result<TraceList, TraceAnswer>
    requires { length text.now ≤ 16777216 }
    ensures says { Says result (trace_of text.now) }
    ensures fault { TellsFault result (lines text.now) }
    ensures few { IfOk result (λ trace. length trace.told ≤ 2000000) }
    ensures bytes { IfOk result (λ trace. HaveBytes (steps_of trace.told)) }
    ensures memory { OnMemory result (TakesMemory (lines text.now)) }
{
    let mut trace = TraceList::new(alloc);
    let mut rest = text;
    while !rest.is_empty() {
        let (line, behind) = first_line(rest);
        read_line(&mut trace, line)?;
        rest = behind;
    }
    Ok(trace)
}
