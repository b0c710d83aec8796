// The commands of a text, line by line.
ghost use Rattle.std.specs.Prelude.{◌≤◌, length};
ghost use Rattle.text_lines.specs.Lines.{lines};
ghost use Rattle.chip_debug.specs.FirstFault.{TellsLines};
ghost use Rattle.chip_debug.specs.Reading.{commands_of};
ghost use Rattle.text_lines.specs.ReadErrors.{Says};

use super::answers::DebugAnswer;
use super::command_list::CommandList;
use super::draft::Draft;
use line_words::read_lines;
use std::alloc::Global;

/// The commands of a text, or the text's first fault: that of the first line that has one, and of such a line's faults the first in the
/// order Word, Number, Range, Total. `Memory`: memory is missing, at a line with a command, before which no line is at fault.
pub fn read_commands(alloc: Global, text: &[u8]) -> Result<CommandList, DebugAnswer>
    requires { length text.now ≤ 16777216 }
    ensures commands { Says result (commands_of text.now) }
    ensures lines { TellsLines result (lines text.now) }
{
    let mut draft = Draft::new(alloc);
    read_lines(&mut draft, text)?;
    Ok(draft.finish())
}
