// The invariant map of a text.
ghost use Rattle.std.specs.Prelude.{◌≡◌, ◌==◌, ◌<◌, ◌≤◌, ◌+◌, IfOk, IfSome, IsOk, None, length, position};
ghost use Rattle.abs_domain.specs.StateView.{state_of};
ghost use Rattle.cart_data.specs.Splits.{IsSplit};
ghost use Rattle.abs_step.specs.StatesAtPoints.{state_in, states_of};
ghost use Rattle.certificate.specs.Answers.{Gives, ReadsAs, entry_as};
ghost use Rattle.text_lines.specs.ReadErrors.{SaysSeen, OnMemory};
ghost use Rattle.certificate.specs.CertificateLaws.{AllFit, HaveSplit};
ghost use Rattle.certificate.specs.CertificateText.{first_line as spelled_first, line_at as spelled_line};
ghost use Rattle.certificate.specs.CertificateText.{count_of as spelled_count, has_split as spelled_split};
ghost use Rattle.certificate.specs.CertificateText.{is_behind as spelled_behind};
ghost use Rattle.certificate.specs.CertificateText.{at_line, header_at as spelled_header, end_at as spelled_end};
ghost use Rattle.certificate.specs.CertificateText.{entry_in as spelled_entry, entries_at, certificate_of};

use super::answers::{CertAnswer, CertCause, CertFault};
use super::entry::entry_of;
use super::parts::behind as after_mark;
use abs_domain::{Abs, Point};
use abs_step::{Annotation, MOST_POINTS};
use cart_data::Split;
use line_words::number_of;
use std::alloc::Global;
use std::collections::BTreeMap;

/// The most points.
const MOST_COUNT: u32 = MOST_POINTS as u32;

/// Where the first line feed stands.
fn line_feed(text: &[u8]) -> Option<usize>
    ensures place { result ≡ position (λ b. b == 10) text.now }
    ensures within { IfSome result (λ at. at < length text.now) }
{
    text.iter().position(|byte| *byte == b'\n')
}

/// The first line of a text without the line feed that ends it, and what is behind it. `None`: there is no line feed (this project's own).
#[tactic(auto, unfolding(crate::specs::CertificateText::first_line))]
pub fn first_line(text: &[u8]) -> Option<(&[u8], &[u8])>
    ensures { Gives (λ x. (x.0.now, x.1.now)) result (spelled_first text.now) }
{
    let at = line_feed(text)?;
    Some((&text[..at], &text[at + 1..]))
}

/// The same of the line of a number. A line feed ends every line.
fn line_at(number: u32, text: &[u8]) -> Result<(&[u8], &[u8]), CertFault>
    ensures { ReadsAs (λ x. (x.0.now, x.1.now)) result (spelled_line number text.now) }
{
    match first_line(text) {
        Some(line) => Ok(line),
        None => Err(CertFault {
            line: number,
            cause: CertCause::End,
        }),
    }
}

/// The number of points by the first line.
#[tactic(auto, unfolding(crate::specs::CertificateText::count_of))]
fn count_of(line: &[u8]) -> Result<u32, CertCause>
    ensures value { result ≡ spelled_count line.now }
    ensures few { IfOk result (λ count. count ≤ 65536) }
{
    let Some(digits) = after_mark(b"F8CERT 1 ", line) else {
        return Err(CertCause::Header);
    };
    let Some(count) = number_of(digits) else {
        return Err(CertCause::Header);
    };
    if count < 1 || count > MOST_COUNT {
        return Err(CertCause::Count);
    }
    Ok(count)
}

/// The number of points by the first line of a text, and what is behind that line.
#[tactic(auto, unfolding(crate::specs::CertificateText::header_at))]
fn header_at(text: &[u8]) -> Result<(u32, &[u8]), CertFault>
    ensures value { ReadsAs (λ x. (x.0, x.1.now)) result (spelled_header text.now) }
    ensures few { IfOk result (λ x. x.0 ≤ 65536) }
{
    let (line, rest) = line_at(1, text)?;
    match count_of(line) {
        Ok(count) => Ok((count, rest)),
        Err(cause) => Err(CertFault { line: 1, cause }),
    }
}

/// The scratchpad has the point's bytes of the tracked registers.
fn has_split(tracked: &[u8], point: &Point, state: &Abs) -> bool
    requires { IsSplit tracked.now }
    ensures { result ≡ spelled_split tracked.now (point.now, state_of state.now) }
{
    for (place, number) in tracked.iter().enumerate() {
        if state.regs[usize::from(*number)].known() != point.split[place] {
            return false;
        }
    }
    true
}

/// The point is behind another one, if there is one.
fn is_behind(before: Option<Point>, point: &Point) -> bool
    ensures { result ≡ spelled_behind before point.now }
{
    match before {
        Some(last) => last.cmp(point).is_lt(),
        None => true,
    }
}

/// A line behind that of another point.
#[tactic(auto, unfolding(crate::specs::CertificateText::entry_in))]
fn entry_in(tracked: &[u8], before: Option<Point>, line: &[u8]) -> Result<(Point, Abs), CertCause>
    requires { IsSplit tracked.now }
    ensures { entry_as result ≡ spelled_entry tracked.now before line.now }
{
    let Some((point, state)) = entry_of(tracked.len(), line) else {
        return Err(CertCause::Field);
    };
    if !has_split(tracked, &point, &state) {
        return Err(CertCause::SplitField);
    }
    if !is_behind(before, &point) {
        return Err(CertCause::Order);
    }
    Ok((point, state))
}

/// The same of the line of a number.
fn entry_at(
    number: u32,
    tracked: &[u8],
    before: Option<Point>,
    line: &[u8],
) -> Result<(Point, Abs), CertFault>
    requires { IsSplit tracked.now }
    ensures { ReadsAs state_in result (at_line number (spelled_entry tracked.now before line.now)) }
{
    match entry_in(tracked, before, line) {
        Ok(entry) => Ok(entry),
        Err(cause) => Err(CertFault {
            line: number,
            cause,
        }),
    }
}

/// No line of this number may stand here.
fn ended(number: u32, rest: &[u8]) -> Result<(), CertFault>
    ensures { ReadsAs (λ _. tt) result (spelled_end number rest.now) }
{
    if rest.is_empty() {
        Ok(())
    } else {
        Err(CertFault {
            line: number,
            cause: CertCause::End,
        })
    }
}

/// The points and states of so many lines, the first of which is the second of a text. Nothing may stand behind them.
fn entries_of(
    alloc: Global,
    tracked: &[u8],
    count: u32,
    text: &[u8],
) -> Result<BTreeMap<Point, Abs>, CertAnswer>
    requires split { IsSplit tracked.now }
    requires few { count ≤ 65536 }
    ensures entries { SaysSeen (λ notes. states_of notes.entries) result
        (entries_at tracked.now count 2 None text.now) }
    ensures few { IfOk result (λ notes. length notes.entries ≤ 65536) }
{
    let mut notes = BTreeMap::new(alloc);
    let mut before = None;
    let mut rest = text;
    for number in 2..count + 2 {
        let (line, behind) = line_at(number, rest)?;
        let (point, state) = entry_at(number, tracked, before, line)?;
        notes.insert(point, state)?;
        before = Some(point);
        rest = behind;
    }
    ended(count + 2, rest)?;
    Ok(notes)
}

/// The invariant map of a certificate's text, or the text's first fault: that of the first line that has one, and of a line's faults the
/// first in the order End, Header, Count, or End, Field, SplitField, Order. A text with too few or too many lines is at fault at the first
/// line that is missing or over. `Memory`: memory is missing, behind a first line that isn't at fault.
#[tactic(auto, unfolding(crate::specs::CertificateText::certificate_of))]
pub fn read_cert(alloc: Global, text: &[u8], split: &Split) -> Result<Annotation, CertAnswer>
    ensures certificate { SaysSeen (λ notes. notes) result (certificate_of split.now text.now) }
    ensures fits { IfOk result (λ notes. AllFit split.now notes) }
    ensures split { IfOk result (λ notes. HaveSplit split.now notes) }
    ensures memory { OnMemory result (IsOk (spelled_header text.now)) }
{
    let (count, rest) = header_at(text)?;
    let notes = entries_of(alloc, split.as_slice(), count, rest)?;
    Ok(Annotation::from_map(notes))
}
