// The lines of what is found of a list of entries, of a search for one, and of a text of entries at fault.
ghost use Rattle.std.specs.Prelude.{◌≡◌, ◌+◌, ◌<◌, ◌≤◌, ◌++◌, ℕ, [], ◌∷◌, length};
ghost use Rattle.std.specs.Option.{ForSome};
ghost use Rattle.case_text.specs.CasesText.{cause_number};
ghost use Rattle.channel_f.specs.Answers.{confirmed_answer, prove_answer};
ghost use Rattle.channel_f.specs.CaseLines.{IsFew, IsOfList, cases_line, entry_line as spelled_entry, origin_text};
ghost use Rattle.channel_f.specs.CaseLines.{given_up_number as spelled_number, list_notclosed_line, list_unsafe_line};
ghost use Rattle.channel_f.specs.CaseLines.{unproved_line as spelled_unproved};
ghost use Rattle.channel_f.specs.Reports.{Reports};
ghost use Rattle.report.specs.CheckLines.{point_text};

use super::lines_out::put_lines;
use super::status::Status;
use abs_domain::{Point, Reason};
use case_search::ProveAnswer;
use case_step::CasesAnswer;
use case_text::CasesFault;
use outside::Sink;
use report::{LINE_ROOM, Line};

/// The line of the text at which the entry at a place of the list stands.
fn entry_line(place: usize) -> u64
    requires { place < 65536 }
    ensures { result ≡ spelled_entry place }
{
    place as u64 + 2
}

/// What comes to a point: a case of the entry at a place, by its line, or the start of a run.
fn write_origin(line: &mut Line, from: Option<usize>)
    requires place { ForSome from (λ place. place < 65536) }
    requires room { length line.old + 20 ≤ LINE_ROOM }
    ensures text { line.new ≡ line.old ++ origin_text from }
    ensures len { length line.new ≤ length line.old + 20 }
{
    match from {
        Some(place) => line.decimal(entry_line(place)),
        None => line.text(b"start"),
    }
}

/// A point by its address and its return, where no register is tracked.
#[tactic(auto, unfolding(report::specs::CheckLines::point_text))]
fn write_point(line: &mut Line, point: &Point)
    requires { length line.old + 11 ≤ LINE_ROOM }
    ensures text { line.new ≡ line.old ++ point_text [] point.now }
    ensures len { length line.new ≡ length line.old + 11 }
{
    line.hex4(point.at);
    line.text(b" ");
    match point.ret {
        Some(at) => line.hex4(at),
        None => line.text(b"----"),
    }
    line.text(b" .");
}

/// `notclosed`: no entry covers what comes to the point `to`, behind a case of the entry at the place `from`, or at the start of a run.
#[tactic(auto, unfolding(crate::specs::CaseLines::list_notclosed_line))]
fn notclosed_line(from: Option<usize>, to: &Point) -> Line
    requires { ForSome from (λ place. place < 65536) }
    ensures { result ≡ list_notclosed_line from to.now }
{
    let mut line = Line::new();
    line.text(b"notclosed ");
    write_origin(&mut line, from);
    line.text(b" to ");
    write_point(&mut line, to);
    line.text(b"\n");
    line
}

/// `unsafe`: a case of the entry at a place isn't safe, for this reason, told by its number.
#[tactic(auto, unfolding(crate::specs::CaseLines::list_unsafe_line))]
fn unsafe_line(place: usize, reason: Reason) -> Line
    requires { place < 65536 }
    ensures { result ≡ list_unsafe_line place reason }
{
    let mut line = Line::new();
    line.text(b"unsafe ");
    line.decimal(entry_line(place));
    line.text(b" ");
    line.small(reason.number());
    line.text(b"\n");
    line
}

/// The number of the reason for which a search gave up, and 0 for want of room.
fn given_up_number(reason: Option<Reason>) -> u8
    ensures { result ≡ spelled_number reason }
{
    reason.map_or(0, Reason::number)
}

/// `unproved`: a search found no list, and gave up at this point, for this reason or for want of room.
#[tactic(auto, unfolding(crate::specs::CaseLines::unproved_line))]
fn unproved_line(point: &Point, reason: Option<Reason>) -> Line
    ensures { result ≡ spelled_unproved point.now reason }
{
    let mut line = Line::new();
    line.text(b"unproved ");
    write_point(&mut line, point);
    line.text(b" ");
    line.small(given_up_number(reason));
    line.text(b"\n");
    line
}

/// `error cases`: the first fault of a text of entries.
#[tactic(auto, unfolding(crate::specs::CaseLines::cases_line))]
pub fn error_cases(fault: CasesFault) -> Line
    ensures { result ≡ cases_line fault.line (cause_number fault.cause) }
{
    let mut line = Line::new();
    line.text(b"error cases line ");
    line.decimal(u64::from(fault.line));
    line.text(b" cause ");
    line.small(fault.cause.number());
    line.text(b"\n");
    line
}

/// The line of what is found of a list of so many entries.
fn confirmed_line(entries: usize, found: &CasesAnswer) -> Line
    requires few { entries ≤ 65536 }
    requires places { IsOfList entries found.now }
    ensures { (confirmed_answer entries found.now).lines ≡ result ∷ [] }
{
    match found {
        CasesAnswer::Whole => report::whole_line(entries as u32),
        CasesAnswer::Agreed => report::agreed_line(entries as u32),
        CasesAnswer::NotClosed { from, to } => notclosed_line(*from, to),
        CasesAnswer::Unsafe { entry, reason } => unsafe_line(*entry, *reason),
    }
}

fn confirmed_status(found: &CasesAnswer) -> Status
    ensures { (entries : ℕ) → result ≡ (confirmed_answer entries found.now).status }
{
    match found {
        CasesAnswer::Whole | CasesAnswer::Agreed => Status::Done,
        CasesAnswer::NotClosed { .. } | CasesAnswer::Unsafe { .. } => Status::NoVerdict,
    }
}

/// Writes the line of what is found of a list of so many entries, and ends with its status.
pub fn put_confirmed<K: Sink>(sink: &mut K, entries: usize, found: &CasesAnswer) -> Status
    requires few { entries ≤ 65536 }
    requires places { IsOfList entries found.now }
    ensures { let due = confirmed_answer entries found.now in
        Reports (K.output sink.old) (K.output sink.new) result due.status due.lines }
{
    let line = confirmed_line(entries, found);
    put_lines(sink, [line].as_slice(), confirmed_status(found))
}

/// The line of what a search found.
fn proved_line(found: &ProveAnswer) -> Line
    requires { IsFew found.now }
    ensures { (prove_answer found.now).lines ≡ result ∷ [] }
{
    match found {
        ProveAnswer::Whole(shown) => report::whole_line(shown.entries as u32),
        ProveAnswer::Agreed(shown) => report::agreed_line(shown.entries as u32),
        ProveAnswer::Unproved { point, reason } => unproved_line(point, *reason),
    }
}

fn proved_status(found: &ProveAnswer) -> Status
    ensures { result ≡ (prove_answer found.now).status }
{
    match found {
        ProveAnswer::Whole(_) | ProveAnswer::Agreed(_) => Status::Done,
        ProveAnswer::Unproved { .. } => Status::NoVerdict,
    }
}

/// Writes the line of what a search found, and ends with its status.
pub fn put_proved<K: Sink>(sink: &mut K, found: &ProveAnswer) -> Status
    requires { IsFew found.now }
    ensures { let due = prove_answer found.now in
        Reports (K.output sink.old) (K.output sink.new) result due.status due.lines }
{
    let line = proved_line(found);
    put_lines(sink, [line].as_slice(), proved_status(found))
}
