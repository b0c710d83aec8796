// The text of some entries.
ghost use Rattle.std.specs.Prelude.{◌≡◌, ◌++◌, ◌≤◌, ◌&&◌, nat_le, false, if◌then◌else◌, Some, None, IfOk, IfSome};
ghost use Rattle.std.specs.Prelude.{IfNone, OnOk, codes};
ghost use Rattle.std.specs.Prelude.{decimal, flat_map, length, map, option_map};
ghost use Rattle.case_step.specs.EntryViews.{entry_view};
ghost use Rattle.certificate.specs.CertificateText.{line_text};
ghost use Rattle.case_text.specs.WrittenCases.{is_writable, lines_of as spelled_lines, text_of as spelled_text};
ghost use Rattle.case_text.specs.WrittenCases.{written};

use super::written_entry::line_of;
use case_step::Entry;
use f8_spec::Memory;
use std::alloc::{AllocError, Global};
use std::collections::BTreeSet;

/// The most bytes of a text.
pub const MOST_TEXT: usize = 67_108_864;

/// The most lines of entries.
const MOST_LINES: usize = 65_536;

/// The bytes of the first line besides its number.
const HEADER_SIZE: usize = 11;

/// Lines in ascending order as texts, each once, and how many bytes they take with their ends.
#[derive(Drop)]
struct Lines {
    lines: BTreeSet<Vec<u8>>,
    size: usize,
    ghost sized: { size ≡ length (flat_map line_text (map (λ line. line.items) lines.keys)) },
}

impl Lines {
    ghost use Rattle.std.specs.Prelude.{◌≡◌, ◌≤◌, ◌&&◌, nat_le, OnOk, length, map};
    ghost use Rattle.std.specs.Ordering.{nat_cmp};
    ghost use Rattle.std.specs.Cmp.Lexicographic.{slice_cmp};
    ghost use Rattle.std.specs.BTreeSet.{insert_key};

    /// Adds a line, where it isn't there.
    fn add(&mut self, line: Vec<u8>) -> Result<(), AllocError>
        requires { self.old.size ≤ 67108864 }
        ensures { OnOk result (map (λ line. line.items) self.new.lines.keys
            ≡ insert_key (slice_cmp nat_cmp)
            (map (λ line. line.items) self.old.lines.keys) line.items) }
    {
        let length = line.len();
        if self.lines.insert(line)? {
            self.size += length + 1;
        }
        Ok(())
    }

    /// They aren't too many, nor too long.
    fn may_stand(&self) -> bool
        ensures { result ≡ (nat_le self.now.size 67108864
            && nat_le (length self.now.lines.keys) 65536) }
    {
        self.size <= MOST_TEXT && self.lines.len() <= MOST_LINES
    }
}

/// The lines of some entries, and none where they are too many or too long.
fn lines_of(alloc: Global, entries: &[Entry]) -> Result<Option<Lines>, AllocError>
    ensures none { IfOk result (λ lines. IfNone lines
        (is_writable (spelled_lines (map entry_view entries.now)) ≡ false)) }
    ensures lines { IfOk result (λ lines. IfSome lines (λ lines.
        map (λ line. line.items) lines.lines.keys ≡ spelled_lines (map entry_view entries.now))) }
    ensures short { IfOk result (λ lines. IfSome lines (λ lines. lines.size ≤ 67108864)) }
    ensures few { IfOk result (λ lines. IfSome lines (λ lines. length lines.lines.keys ≤ 65536)) }
{
    let mut lines = Lines {
        lines: BTreeSet::new(alloc),
        size: 0,
    };
    for entry in entries {
        lines.add(line_of(alloc, entry)?)?;
        if !lines.may_stand() {
            return Ok(None);
        }
    }
    Ok(Some(lines))
}

/// Writes lines with their ends.
fn put_lines(out: &mut Vec<u8>, lines: &BTreeSet<Vec<u8>>) -> Result<(), AllocError>
    ensures { OnOk result (out.new.items
        ≡ out.old.items ++ flat_map line_text (map (λ line. line.items) lines.now.keys)) }
{
    for line in lines {
        out.extend_from_slice(line.as_slice())?;
        out.push(b'\n')?;
    }
    Ok(())
}

/// The text of lines, and none where there is no line or the text is too long.
#[tactic(auto, unfolding(crate::specs::WrittenCases::text_of))]
fn text_of(alloc: Global, lines: &Lines) -> Result<Option<Vec<u8>>, AllocError>
    requires short { lines.now.size ≤ 67108864 }
    requires few { length lines.now.lines.keys ≤ 65536 }
    ensures { let texts = map (λ line. line.items) lines.now.lines.keys in
        IfOk result (λ text. option_map (λ text. text.items) text
        ≡ (if is_writable texts then Some (spelled_text texts) else None)) }
{
    let mut digits = itoa::Buffer::new();
    let count = digits.format(lines.lines.len());
    let size = HEADER_SIZE + count.len() + lines.size;
    if lines.lines.is_empty() || size > MOST_TEXT {
        return Ok(None);
    }
    let mut out = Vec::with_capacity(alloc, size)?;
    out.extend_from_slice(b"F8CASES 1 ")?;
    out.extend_from_slice(count.as_bytes())?;
    out.push(b'\n')?;
    put_lines(&mut out, &lines.lines)?;
    Ok(Some(out))
}

/// The text of some entries, or none.
#[tactic(auto, unfolding(crate::specs::WrittenCases::written))]
fn text_with(alloc: Global, entries: &[Entry]) -> Result<Option<Vec<u8>>, AllocError>
    ensures { IfOk result (λ text. option_map (λ text. text.items) text
        ≡ written (map entry_view entries.now)) }
{
    match lines_of(alloc, entries)? {
        Some(lines) => text_of(alloc, &lines),
        None => Ok(None),
    }
}

/// The text of some entries: the line of each once, in their order, behind a first line with the number of them; and none where there are
/// no entries, more than 65,536 lines, or more than 67,108,864 bytes. Where each set ascends and none is empty or too long for a line, it
/// is read as these entries.
///
/// # Errors
///
/// Memory is missing for the lines, or for the text.
pub fn write_cases(alloc: Global, entries: &[Entry]) -> Result<Option<Vec<u8>>, Memory>
    ensures { IfOk result (λ text. option_map (λ text. text.items) text
        ≡ written (map entry_view entries.now)) }
{
    match text_with(alloc, entries) {
        Ok(text) => Ok(text),
        Err(_) => Err(Memory),
    }
}
