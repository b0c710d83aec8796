// The list of entries of a text.
ghost use Rattle.std.specs.Prelude.{◌≡◌, ◌≤◌, IfOk, IsOk, None, codes, length, option_map};
ghost use Rattle.std.specs.Result.{result_map_both};
ghost use Rattle.text_lines.specs.ReadErrors.{SaysSeen, OnMemory};
ghost use Rattle.certificate.specs.Answers.{Gives};
ghost use Rattle.certificate.specs.Parts.{behind};
ghost use Rattle.case_step.specs.EntryViews.{entry_view};
ghost use Rattle.case_text.specs.CasesText.{at_line, line_at as spelled_line, end_at as spelled_end};
ghost use Rattle.case_text.specs.CasesText.{header_at as spelled_header};
ghost use Rattle.case_text.specs.CasesText.{count_of as spelled_count, capital as spelled_capital};
ghost use Rattle.case_text.specs.CasesText.{is_text_behind as spelled_text_behind};
ghost use Rattle.case_text.specs.CasesText.{is_behind as spelled_behind, entry_in as spelled_entry, entries_at};
ghost use Rattle.case_text.specs.CasesText.{cases_of};

use super::cause::{CasesCause, CasesError, CasesFault};
use super::entry_line::entry_of;
use case_step::{CaseList, Entry};
use certificate::first_line;
use line_words::number_of;
use std::alloc::Global;

/// The most entries.
const MOST_ENTRIES: u32 = 65_536;

/// The first line of a text without the line feed that ends it, and what is behind it, where this is the line of a number.
fn line_at(number: u32, text: &[u8]) -> Result<(&[u8], &[u8]), CasesFault>
    ensures { result_map_both (λ x. (x.0.now, x.1.now)) (λ fault. fault) result
        ≡ spelled_line number text.now }
{
    first_line(text).ok_or(CasesFault {
        line: number,
        cause: CasesCause::End,
    })
}

/// What is behind the mark of a list of cases, where a line begins with it.
fn behind_mark(line: &[u8]) -> Option<&[u8]>
    ensures { Gives (λ rest. rest.now) result (behind (codes "F8CASES 1 ") line.now) }
{
    line.strip_prefix(b"F8CASES 1 ")
}

/// The number of entries by the first line.
#[tactic(auto, unfolding(crate::specs::CasesText::count_of))]
fn count_of(line: &[u8]) -> Result<u32, CasesCause>
    ensures value { result ≡ spelled_count line.now }
    ensures few { IfOk result (λ count. count ≤ 65536) }
{
    let Some(digits) = behind_mark(line) else {
        return Err(CasesCause::Header);
    };
    let Some(count) = number_of(digits) else {
        return Err(CasesCause::Header);
    };
    if count < 1 || count > MOST_ENTRIES {
        return Err(CasesCause::Count);
    }
    Ok(count)
}

/// The number of entries by the first line of a text, and what is behind that line.
#[tactic(auto, unfolding(crate::specs::CasesText::header_at))]
fn header_at(text: &[u8]) -> Result<(u32, &[u8]), CasesFault>
    ensures value { result_map_both (λ x. (x.0, x.1.now)) (λ fault. fault) result
        ≡ spelled_header text.now }
    ensures few { IfOk result (λ x. x.0 ≤ 65536) }
{
    let (line, rest) = line_at(1, text)?;
    match count_of(line) {
        Ok(count) => Ok((count, rest)),
        Err(cause) => Err(CasesFault { line: 1, cause }),
    }
}

/// An entry's line without its line feed, and the address in it.
#[derive(Clone, Copy)]
struct Last<'a> {
    at: u16,
    line: &'a [u8],
}

/// The capital of a small letter, and any other byte as it is.
fn capital(byte: &u8) -> u8
    ensures { result ≡ spelled_capital byte.now }
{
    byte.to_ascii_uppercase()
}

/// A line is behind another one, as texts with capitals for small letters.
fn is_text_behind(before: &[u8], line: &[u8]) -> bool
    ensures { result ≡ spelled_text_behind before.now line.now }
{
    before
        .iter()
        .map(capital)
        .cmp(line.iter().map(capital))
        .is_lt()
}

/// An entry and its line are behind another one, if there is one.
fn is_behind(before: Option<Last<'_>>, at: u16, line: &[u8]) -> bool
    ensures { result
        ≡ spelled_behind (option_map (λ last. (last.at, last.line.now)) before.entry) at line.now }
{
    match before {
        Some(last) => last.at < at || last.at == at && is_text_behind(last.line, line),
        None => true,
    }
}

/// The entry of the line of a number, behind another one.
#[tactic(auto, unfolding(crate::specs::CasesText::entry_in))]
fn entry_at(
    alloc: Global,
    number: u32,
    before: Option<Last<'_>>,
    line: &[u8],
) -> Result<Entry, CasesError>
    ensures { let last = option_map (λ last. (last.at, last.line.now)) before.entry in
        SaysSeen entry_view result (at_line number (spelled_entry last line.now)) }
{
    let cause = match entry_of(alloc, line)? {
        Some(entry) if is_behind(before, entry.at, line) => return Ok(entry),
        Some(_) => CasesCause::Order,
        None => CasesCause::Field,
    };
    Err(CasesError::Fault(CasesFault {
        line: number,
        cause,
    }))
}

/// No line of this number may stand here.
fn ended(number: u32, rest: &[u8]) -> Result<(), CasesFault>
    ensures { result ≡ spelled_end number rest.now }
{
    if rest.is_empty() {
        Ok(())
    } else {
        Err(CasesFault {
            line: number,
            cause: CasesCause::End,
        })
    }
}

/// The entries of so many lines, the first of which is the second of a text. Nothing may stand behind them.
fn entries_of(alloc: Global, count: u32, text: &[u8]) -> Result<CaseList, CasesError>
    requires { count ≤ 65536 }
    ensures entries { SaysSeen (λ list. list) result (entries_at count 2 None text.now) }
    ensures few { IfOk result (λ list. length list ≤ 65536) }
{
    let mut list = CaseList::new(alloc);
    let mut before = None;
    let mut rest = text;
    for number in 2..count + 2 {
        let (line, behind) = line_at(number, rest)?;
        let entry = entry_at(alloc, number, before, line)?;
        before = Some(Last { at: entry.at, line });
        list.push(entry)?;
        rest = behind;
    }
    ended(count + 2, rest)?;
    Ok(list)
}

/// The entries of a text, or the text's first fault: that of the first line that has one, and of a line's faults the first in the order End,
/// Header, Count, or End, Field, Order. A text with too few or too many lines is at fault at the first line that is missing or over.
/// `Memory`: memory is missing, behind a first line that isn't at fault.
#[tactic(auto, unfolding(crate::specs::CasesText::cases_of))]
pub fn read_cases(alloc: Global, text: &[u8]) -> Result<CaseList, CasesError>
    ensures cases { SaysSeen (λ list. list) result (cases_of text.now) }
    ensures few { IfOk result (λ list. length list ≤ 65536) }
    ensures memory { OnMemory result (IsOk (spelled_header text.now)) }
{
    let (count, rest) = header_at(text)?;
    entries_of(alloc, count, rest)
}
