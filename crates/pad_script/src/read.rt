// The script of a text, line by line.
ghost use Rattle.std.specs.Prelude.{◌≤◌, ◌+◌, IfOk, length};
ghost use Rattle.text_lines.specs.Lines.{lines};
ghost use Rattle.text_lines.specs.ReadErrors.{SaysSeen};
ghost use Rattle.pad_script.specs.FirstFault.{TellsFault};
ghost use Rattle.pad_script.specs.Limits.{HasLimits};
ghost use Rattle.pad_script.specs.Reading.{script_of, seen};
ghost use Rattle.pad_script.specs.Telling.{IsTold, statements};

use super::answers::{ScriptAnswer, ScriptCause, ScriptFault};
use super::draft::Draft;
use super::script::Script;
use line_words::read_lines;
use std::alloc::Global;

/// The script of a text, or the text's first fault: that of the first line that has one, and of such a line's faults the first in the
/// order Word, Number, Range, Twice, TooMany. A text without an end of the run is at fault at the line after its last. `Memory`: memory
/// is missing, at a line of an event or a shown frame, before which no line is at fault. The run of a script ends
/// at frame 600 at the latest, or after 1,000,000 instructions at most.
pub fn read_script(alloc: Global, text: &[u8]) -> Result<Script, ScriptAnswer>
    requires { length text.now ≤ 16777216 }
    ensures script { SaysSeen seen result (script_of text.now) }
    ensures told { IfOk result (λ script. IsTold (statements (lines text.now)) (seen script)) }
    ensures fault { TellsFault result (lines text.now) }
    ensures limit { IfOk result (λ script. length script.events + length script.shows ≤ 1024) }
    ensures ends { IfOk result (λ script. HasLimits script.end) }
{
    let mut draft = Draft::new(alloc);
    let count = read_lines(&mut draft, text)?;
    let Some(script) = draft.finish() else {
        return Err(ScriptAnswer::Fault(ScriptFault {
            line: count + 1,
            cause: ScriptCause::NoEnd,
        }));
    };
    Ok(script)
}
