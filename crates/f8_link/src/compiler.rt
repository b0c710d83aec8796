// The object of a module's text.
ghost use Rattle.std.specs.Prelude.{◌≡◌, ◌≤◌, length};
ghost use Rattle.text_lines.specs.Lines.{lines};
ghost use Rattle.text_lines.specs.ReadErrors.{Says};
ghost use Rattle.f8_link.specs.Answers.{told};
ghost use Rattle.f8_link.specs.FirstPass.{no_reading, read_lines as said_lines};
ghost use Rattle.f8_link.specs.ThirdPass.{compiled};

use crate::answers::ModAnswer;
use crate::faults::fault_of;
use crate::first_pass::{Reading, read_lines};
use crate::objects::Object;
use crate::second_pass::place_lines;
use crate::third_pass::emit_lines;
use f8_asm::AsmAnswer;
use std::alloc::Global;

/// The lines of a module, with the assembler's fault as a module's.
fn module_lines(alloc: Global, text: &[u8]) -> Result<Reading, ModAnswer>
    requires { length text.now ≤ 16777216 }
    ensures { Says result (told (said_lines no_reading (lines text.now))) }
{
    match read_lines(alloc, text) {
        Ok(reading) => Ok(reading),
        Err(AsmAnswer::Fault(fault)) => Err(ModAnswer::Fault(fault_of(fault))),
        Err(AsmAnswer::Memory) => Err(ModAnswer::Memory),
    }
}

/// The object of a module: a text of assembly that begins at offset 0, and may share names by `EXPORT` and `IMPORT`.
///
/// # Errors
///
/// `Fault`: the first fault of the text, in text order within the earliest of three passes (docs/ASSEMBLY.md).
/// `Memory`: memory is missing.
#[tactic(auto, unfolding(crate::specs::ThirdPass::compiled))]
pub fn compile(alloc: Global, text: &[u8]) -> Result<Object, ModAnswer>
    requires { length text.now ≤ 16777216 }
    ensures { Says result (compiled text.now) }
{
    let (imports, lines) = module_lines(alloc, text)?.into_parts();
    let layout = place_lines(alloc, &imports, lines)?;
    let code = emit_lines(alloc, &layout, &imports)?;
    Ok(code.into_object(alloc, &imports)?)
}
