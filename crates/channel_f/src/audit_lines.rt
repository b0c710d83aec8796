// The lines of an audit, and that of a trace at fault.
ghost use Rattle.std.specs.Prelude.{◌≡◌, ◌≤◌, length};
ghost use Rattle.channel_f.specs.Answers.{audited_answer};
ghost use Rattle.channel_f.specs.AuditLines.{accept_line as spelled_accept, reject_line as spelled_reject};
ghost use Rattle.channel_f.specs.AuditLines.{trace_line as spelled_trace, numbered_line as spelled_numbered};
ghost use Rattle.channel_f.specs.Reports.{Reports};

use super::lines_out::put_lines;
use super::status::Status;
use bus_audit::AuditAnswer;
use outside::Sink;
use report::Line;

/// Some words, of at most 16 bytes, with a number behind them.
#[tactic(auto, unfolding(crate::specs::AuditLines::numbered_line))]
fn numbered_line(words: &[u8], number: u32) -> Line
    requires { length words.now ≤ 16 }
    ensures { result ≡ spelled_numbered words.now number }
{
    let mut line = Line::new();
    line.text(words);
    line.text(b" ");
    line.decimal(u64::from(number));
    line.text(b"\n");
    line
}

/// `accept`: the trace is the whole record of a free run with so many instructions that are done.
fn accept_line(instructions: u32) -> Line
    ensures { result ≡ spelled_accept instructions }
{
    numbered_line(b"accept", instructions)
}

/// `reject`: the trace is the record of no free run, and this is the line at which none goes on.
fn reject_line(line: u32) -> Line
    ensures { result ≡ spelled_reject line }
{
    numbered_line(b"reject line", line)
}

/// `error trace`: the first line of a trace that spells no bus step where it has to.
pub fn error_trace(line: u32) -> Line
    ensures { result ≡ spelled_trace line }
{
    numbered_line(b"error trace line", line)
}

/// Writes the line of what is found of a trace, and ends with its status.
pub fn put_audited<K: Sink>(sink: &mut K, found: AuditAnswer) -> Status
    ensures { let due = audited_answer found in
        Reports (K.output sink.old) (K.output sink.new) result due.status due.lines }
{
    match found {
        AuditAnswer::Accept { instructions } => {
            put_lines(sink, [accept_line(instructions)].as_slice(), Status::Done)
        }
        AuditAnswer::Reject { line } => {
            put_lines(sink, [reject_line(line)].as_slice(), Status::NoVerdict)
        }
    }
}
