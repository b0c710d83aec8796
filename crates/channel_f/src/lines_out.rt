// The lines that are written, each as one put.
ghost use Rattle.std.specs.Prelude.{◌≡◌, ◌≢◌, ◌<◌, ◌≤◌, ℕ, List, [], ◌∷◌, OnOk, OnErr};
ghost use Rattle.console_spec.specs.RunText.{stop_line as spelled_stop, text_of};
ghost use Rattle.rack_run.specs.Endings.{stop_at};
ghost use Rattle.channel_f.specs.Answers.{status_of, check_answer, found_answer};
ghost use Rattle.channel_f.specs.Manners.{opening_lines, ending_told, summary_told, closing_told};
ghost use Rattle.channel_f.specs.Reports.{Reports};
ghost use Rattle.asm_lines.specs.ImageLines.{image_lines};
ghost use Rattle.outside.specs.SinkRules.{Adds, AddsPart};

use super::manner::Manner;
use super::status::Status;
use asm_lines::{put_image, put_linked, put_listing};
use cart_checker::Verdict;
use cart_data::Split;
use certificate::VerifyAnswer;
use f8_asm::{Image, Text};
use f8_link::Linked;
use generator::{gen_line, scratch_sum, scratch_sum_line, writes_line};
use outside::{Sink, SinkFault};
use rack_run::{Ending, Halt};
use report::{Line, VerdictWord};

/// Each line is one put.
fn put_all<K: Sink>(sink: &mut K, lines: &[Line]) -> Result<(), SinkFault>
    ensures ok { OnOk result (Adds (K.output sink.old) (K.output sink.new) (text_of lines.now)) }
    ensures err { OnErr result (AddsPart (K.output sink.old) (K.output sink.new)
        (text_of lines.now)) }
{
    for line in lines {
        sink.put(line.as_bytes())?;
    }
    Ok(())
}

fn stop_line(halt: &Option<Halt>) -> Line
    ensures { result ≡ spelled_stop (stop_at halt.now) }
{
    match halt {
        None => report::stop_done_line(),
        Some(Halt::Fault(fault)) => report::stop_fault_line(fault),
        Some(Halt::Reserved { at, code }) => report::stop_reserved_line(*at, *code),
    }
}

/// The lines of a run from its stop line on. ISAR is below 64.
fn lines_of(ending: &Ending) -> [Line; 7]
    requires { ending.now.regs.isar < 64 }
    ensures { result ≡ ending_told ending.now }
{
    [
        stop_line(&ending.halt),
        report::regs_line(&ending.regs),
        report::scratch_line(&ending.regs, 0),
        report::scratch_line(&ending.regs, 1),
        report::scratch_line(&ending.regs, 2),
        report::scratch_line(&ending.regs, 3),
        report::total_line(ending.count, ending.phi),
    ]
}

fn status_at(halt: &Option<Halt>) -> Status
    ensures { result ≡ status_of (stop_at halt.now) }
{
    match halt {
        None => Status::Done,
        Some(Halt::Fault(_)) => Status::Fault,
        Some(Halt::Reserved { .. }) => Status::Reserved,
    }
}

/// Writes lines, and then ends with a status.
pub fn put_lines<K: Sink>(sink: &mut K, lines: &[Line], status: Status) -> Status
    requires { status ≢ Status.Sink }
    ensures { Reports (K.output sink.old) (K.output sink.new)
        result status lines.now }
{
    match put_all(sink, lines) {
        Ok(()) => status,
        Err(SinkFault) => Status::Sink,
    }
}

/// Writes the lines of a run from its stop line on, and ends with its status. ISAR is below 64.
pub fn put_ending<K: Sink>(sink: &mut K, ending: &Ending) -> Status
    requires { ending.now.regs.isar < 64 }
    ensures { Reports (K.output sink.old) (K.output sink.new) result
        (status_of (stop_at ending.now.halt)) (ending_told ending.now) }
{
    put_lines(sink, lines_of(ending).as_slice(), status_at(&ending.halt))
}

/// The lines before a run on a rack.
pub fn put_opening<K: Sink>(
    sink: &mut K,
    manner: Manner,
    word: VerdictWord,
) -> Result<(), SinkFault>
    ensures ok { OnOk result (Adds (K.output sink.old) (K.output sink.new)
        (text_of (opening_lines manner word))) }
    ensures err { OnErr result (AddsPart (K.output sink.old) (K.output sink.new)
        (text_of (opening_lines manner word))) }
{
    let verdict = report::verdict_line(word);
    match manner {
        Manner::Whole { .. } => put_all(sink, [verdict].as_slice()),
        Manner::Summary { seed } => put_all(sink, [gen_line(seed), verdict].as_slice()),
    }
}

/// The lines that sum up a run.
fn summary_of(ending: &Ending) -> [Line; 4]
    ensures { result ≡ summary_told ending.now }
{
    [
        stop_line(&ending.halt),
        report::total_line(ending.count, ending.phi),
        writes_line(ending.writes, ending.bytes),
        scratch_sum_line(scratch_sum(&ending.regs.scratch)),
    ]
}

/// Writes the lines behind a run on a rack, and ends with its status. ISAR is below 64.
pub fn put_closing<K: Sink>(sink: &mut K, manner: Manner, ending: &Ending) -> Status
    requires { ending.now.regs.isar < 64 }
    ensures { Reports (K.output sink.old) (K.output sink.new) result
        (status_of (stop_at ending.now.halt)) (closing_told manner ending.now) }
{
    match manner {
        Manner::Whole { .. } => put_ending(sink, ending),
        Manner::Summary { .. } => {
            put_lines(sink, summary_of(ending).as_slice(), status_at(&ending.halt))
        }
    }
}

/// The line of a verdict on a cartridge, by the registers that are tracked.
fn check_line(split: &Split, verdict: &Verdict) -> Line
    ensures { (check_answer split.now verdict.now).lines ≡ result ∷ [] }
{
    match verdict {
        Verdict::Whole(notes) => report::whole_line(notes.len() as u32),
        Verdict::Agreed(notes) => report::agreed_line(notes.len() as u32),
        Verdict::Refused { point, reason, .. } => report::refused_line(point, split, *reason),
        Verdict::TooMany => report::toomany_line(),
    }
}

fn check_status(verdict: &Verdict) -> Status
    ensures { (split : List ℕ) → result ≡ (check_answer split verdict.now).status }
{
    match verdict {
        Verdict::Whole(_) | Verdict::Agreed(_) => Status::Done,
        Verdict::Refused { .. } | Verdict::TooMany => Status::NoVerdict,
    }
}

/// Writes the line of a verdict on a cartridge, and ends with its status.
pub fn put_verdict<K: Sink>(sink: &mut K, split: &Split, verdict: &Verdict) -> Status
    ensures { let due = check_answer split.now verdict.now in
        Reports (K.output sink.old) (K.output sink.new) result due.status due.lines }
{
    let line = check_line(split, verdict);
    put_lines(sink, [line].as_slice(), check_status(verdict))
}

/// The line of what is found of a certificate with so many points.
fn found_line(split: &Split, points: usize, found: &VerifyAnswer) -> Line
    requires { points ≤ 65536 }
    ensures { (found_answer split.now points found.now).lines ≡ result ∷ [] }
{
    match found {
        VerifyAnswer::Whole => report::whole_line(points as u32),
        VerifyAnswer::Agreed => report::agreed_line(points as u32),
        VerifyAnswer::NotClosed { from, to } => report::notclosed_line(from.as_ref(), to, split),
        VerifyAnswer::Unsafe { point, reason } => report::unsafe_line(point, split, *reason),
    }
}

fn found_status(found: &VerifyAnswer) -> Status
    ensures { (split : List ℕ) (points : ℕ) →
        result ≡ (found_answer split points found.now).status }
{
    match found {
        VerifyAnswer::Whole | VerifyAnswer::Agreed => Status::Done,
        VerifyAnswer::NotClosed { .. } | VerifyAnswer::Unsafe { .. } => Status::NoVerdict,
    }
}

/// Writes the line of what is found of a certificate with so many points, and ends with its status.
pub fn put_found<K: Sink>(
    sink: &mut K,
    split: &Split,
    points: usize,
    found: &VerifyAnswer,
) -> Status
    requires { points ≤ 65536 }
    ensures { let due = found_answer split.now points found.now in
        Reports (K.output sink.old) (K.output sink.new) result due.status due.lines }
{
    let line = found_line(split, points, found);
    put_lines(sink, [line].as_slice(), found_status(found))
}

/// Writes the lines of an image.
pub fn put_picture<K: Sink>(sink: &mut K, image: &Image) -> Status
    ensures { Reports (K.output sink.old) (K.output sink.new)
        result Status.Done (image_lines image.now) }
{
    match put_image(sink, image) {
        Ok(()) => Status::Done,
        Err(SinkFault) => Status::Sink,
    }
}

/// Writes the lines of linked modules.
pub fn put_modules<K: Sink>(sink: &mut K, linked: &Linked) -> Status
    ensures { Reports (K.output sink.old) (K.output sink.new)
        result Status.Done (image_lines linked.now) }
{
    match put_linked(sink, linked) {
        Ok(()) => Status::Done,
        Err(SinkFault) => Status::Sink,
    }
}

/// Writes a document.
pub fn put_document<K: Sink>(sink: &mut K, document: &str) -> Status
    ensures { Reports (K.output sink.old) (K.output sink.new)
        result Status.Done (document.now ∷ []) }
{
    match sink.put(document.as_bytes()) {
        Ok(()) => Status::Done,
        Err(SinkFault) => Status::Sink,
    }
}

/// Writes the lines of a text.
pub fn put_text<K: Sink>(sink: &mut K, text: &Text) -> Status
    ensures { Reports (K.output sink.old) (K.output sink.new)
        result Status.Done (text.now ∷ []) }
{
    match put_listing(sink, text) {
        Ok(()) => Status::Done,
        Err(SinkFault) => Status::Sink,
    }
}
