// What an audit answers.
ghost use Rattle.std.specs.Prelude.{◌≡◌, drop};
ghost use Rattle.bus_audit.specs.Answers.{answer_in, steps_of};

use super::trace::TraceList;

/// What an audit answers.
#[derive(Clone, Copy, Debug, PartialEq, Eq)]
pub enum AuditAnswer {
    /// The trace is the whole record of a run of the cartridge under some port inputs, with so many instructions that are done.
    Accept { instructions: u32 },
    /// It is the record of none: no run goes on with the steps that begin at this line, or the trace has no step and this is the line
    /// behind its text.
    Reject { line: u32 },
}

/// What is answered where so many instructions are done and so many steps of the trace count.
pub(crate) fn answer(trace: &TraceList, instructions: u32, count: usize) -> AuditAnswer
    ensures { result ≡ answer_in trace.now
        (record { count = instructions; rest = drop count (steps_of trace.now.told) }) }
{
    if trace.is_empty() {
        return AuditAnswer::Reject {
            line: trace.after(),
        };
    }
    match trace.get(count) {
        Some(left) => AuditAnswer::Reject { line: left.line },
        None => AuditAnswer::Accept { instructions },
    }
}
