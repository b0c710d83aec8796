// A text that is read line by line.
ghost use Rattle.std.specs.Prelude.{◌≡◌, ◌≤◌, IfOk, length};
ghost use Rattle.text_lines.specs.Lines.{lines};
ghost use Rattle.text_lines.specs.ReadErrors.{OnMemory, SaysSeen, StepsTo};
ghost use Rattle.line_words.specs.Drafts.{after_lines, IsShortAt};

use super::text_fault::TextFault;
use std::fmt::Display;
use text_lines::{ReadError, first_line};

/// What some lines of a text have said, to which a line more can be added.
pub trait LineDraft {
    ghost use Rattle.std.specs.Prelude.{ℕ, List, Result};

    /// What may be wrong with a line.
    type Cause: Display + Drop;

    // what is said with one line more, or what is wrong with that line
    ghost after_line: { Self → List ℕ → Result Self Self.Cause };

    // a line takes memory
    ghost takes_memory: { List ℕ → Type 0 };

    /// Reads one line more. Memory is wanting only where the line takes it.
    fn read_line(&mut self, line: &[u8]) -> Result<(), ReadError<Self::Cause>>
        ensures steps { StepsTo result self.new (after_line self.old line.now) }
        ensures memory { OnMemory result (takes_memory line.now) };
}

/// Reads all lines of a text into a draft, and tells how many they are, or the first fault. `Memory`: memory is missing, at a line that
/// takes it and before which no line is at fault.
pub fn read_lines<D: LineDraft>(
    draft: &mut D,
    text: &[u8],
) -> Result<u32, ReadError<TextFault<D::Cause>>>
    requires { length text.now ≤ 16777216 }
    ensures draft { SaysSeen (λ count. draft.new) result
        (after_lines D.after_line 1 draft.old (lines text.now)) }
    ensures count { IfOk result (λ count. count ≡ length (lines text.now)) }
    ensures few { IfOk result (λ count. count ≤ 16777216) }
    ensures memory { OnMemory result
        (IsShortAt D.after_line D.takes_memory draft.old (lines text.now)) }
{
    let mut rest = text;
    let mut count = 0u32;
    while !rest.is_empty() {
        let (line, behind) = first_line(rest);
        count += 1;
        match draft.read_line(line) {
            Ok(()) => {}
            Err(ReadError::Fault(cause)) => {
                return Err(ReadError::Fault(TextFault { line: count, cause }));
            }
            Err(ReadError::Memory) => return Err(ReadError::Memory),
        }
        rest = behind;
    }
    Ok(count)
}
