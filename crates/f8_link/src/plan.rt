// The plan of some modules: which files they are, and the room of each.
ghost use Rattle.std.specs.Prelude.{◌≡◌, ◌≤◌, ◌<◌, length, IfOk, IfSome, IsTrue};
ghost use Rattle.std.specs.List.{list_all};
ghost use Rattle.text_lines.specs.Printable.{is_printable};
ghost use Rattle.text_lines.specs.Lines.{lines};
ghost use Rattle.text_lines.specs.ReadErrors.{OnMemory, SaysSeen, StepsTo};
ghost use Rattle.line_words.specs.Words.{words};
ghost use Rattle.f8_link.specs.Plans.{cause_number, entry, entry_seen, line_seen, said, line_of as spelled_line};
ghost use Rattle.f8_link.specs.Plans.{no_lines, said_with, read_line, plan_of, TakesMemory};

use f8_asm::Room;
use line_words::{
    LineDraft, TextFault, address_of, first_word, is_skipped, is_word, only_word, read_lines,
};
use std::alloc::Global;
use std::marker::Model;
use text_lines::{ReadError, all_printable};
use thiserror::Error;

/// The most modules of a plan.
const MOST_MODULES: usize = 64;

/// The most characters of a file's name.
const LONGEST_NAME: usize = 64;

/// What is wrong with a line of a plan.
#[derive(Clone, Copy, Debug, PartialEq, Eq, Error)]
pub enum PlanCause {
    /// A byte that isn't printable ASCII, or words that make no line.
    #[error("no line of a plan")]
    Word,
    /// An address isn't four hexadecimal digits.
    #[error("not an address")]
    Number,
    /// A name of more than 64 characters, or a room that ends before it begins.
    #[error("out of range")]
    Range,
    /// There are 64 modules before this one.
    #[error("too many modules")]
    TooMany,
    /// The text ends, and has no module.
    #[error("no module")]
    NoModule,
}

impl PlanCause {
    /// The number of the cause, 1 to 5.
    pub fn number(self) -> u8
        ensures { result ≡ cause_number self }
    {
        match self {
            PlanCause::Word => 1,
            PlanCause::Number => 2,
            PlanCause::Range => 3,
            PlanCause::TooMany => 4,
            PlanCause::NoModule => 5,
        }
    }
}

/// The first fault of a plan, at its line.
pub type PlanFault = TextFault<PlanCause>;

/// Why a text is no plan.
pub type PlanAnswer = ReadError<PlanFault>;

/// A module of a plan: the name of its file, 1 to 64 printable ASCII characters without blanks, and its room, which ends at or behind the address
/// where it begins.
#[derive(Debug, Drop)]
pub struct ModuleLine {
    pub file: String,
    pub room: Room,
}

/// The modules of a plan in order, 1 to 64. A contract sees that list.
#[derive(Debug, Drop)]
pub struct ModuleList {
    lines: Vec<ModuleLine>,
}

impl Model for ModuleList {
    ghost use Rattle.std.specs.Prelude.{List, map, ◌≤◌, length};
    ghost use Rattle.f8_link.specs.Plans.{PlannedModule, module_seen};

    ghost Value = { List PlannedModule };

    ghost view = { λ l. map module_seen l.lines.items };

    ghost invariant = { λ l. length l.lines.items ≤ 64 };
}

impl ModuleList {
    ghost use Rattle.std.specs.Prelude.{◌≡◌, ◌≤◌, length, map, IsTrue};
    ghost use Rattle.std.specs.List.{list_all};
    ghost use Rattle.text_lines.specs.Printable.{is_printable};
    ghost use Rattle.f8_link.specs.Plans.{module_seen, no_lines, said_with};

    /// No module.
    #[tactic(auto, unfolding(crate::specs::Plans::no_lines))]
    fn new(alloc: Global) -> ModuleList
        ensures { result ≡ no_lines }
    {
        ModuleList {
            lines: Vec::new(alloc),
        }
    }

    /// One line more names a module.
    fn say(&mut self, alloc: Global, file: &[u8], room: Room) -> Result<(), ReadError<PlanCause>>
        requires { IsTrue (list_all is_printable file.now) }
        ensures { StepsTo result self.new
            (said_with self.old (record { file = file.now; room = room })) }
    {
        if self.lines.len() == MOST_MODULES {
            return Err(ReadError::Fault(PlanCause::TooMany));
        }
        let file = String::from_utf8_lossy(alloc, file)?;
        self.lines.push(ModuleLine { file, room })?;
        Ok(())
    }

    /// The modules in order.
    pub fn as_slice(&self) -> &[ModuleLine]
        ensures lines { map module_seen result.now ≡ self.now }
        ensures few { length result.now ≤ 64 }
    {
        self.lines.as_slice()
    }
}

/// A file and its room, by their words.
fn entry<'a>(file: &'a [u8], first: &[u8], last: &[u8]) -> Result<(&'a [u8], Room), PlanCause>
    requires { IsTrue (list_all is_printable file.now) }
    ensures value { entry_seen result ≡ entry file.now first.now last.now }
    ensures printable { IfOk result (λ e. IsTrue (list_all is_printable e.0.now)) }
{
    if file.is_empty() || first.is_empty() || last.is_empty() {
        return Err(PlanCause::Word);
    }
    let (Some(first), Some(last)) = (address_of(first), address_of(last)) else {
        return Err(PlanCause::Number);
    };
    if file.len() > LONGEST_NAME || last < first {
        return Err(PlanCause::Range);
    }
    Ok((file, Room { first, last }))
}

/// What the words of a line say: `module FILE AAAA BBBB`.
#[tactic(auto, using(crate::proofs::PlanLines::second_printable))]
fn said(line: &[u8]) -> Result<(&[u8], Room), PlanCause>
    requires { IsTrue (list_all is_printable line.now) }
    ensures value { entry_seen result ≡ said (words line.now) }
    ensures printable { IfOk result (λ e. IsTrue (list_all is_printable e.0.now)) }
{
    let (name, Some(rest)) = first_word(line) else {
        return Err(PlanCause::Word);
    };
    let (file, Some(rest)) = first_word(rest) else {
        return Err(PlanCause::Word);
    };
    let (first, Some(rest)) = first_word(rest) else {
        return Err(PlanCause::Word);
    };
    match only_word(rest) {
        Some(last) if is_word(name, b"module") => entry(file, first, last),
        _ => Err(PlanCause::Word),
    }
}

/// What a line says, and `None` where it is skipped.
#[tactic(auto, unfolding(crate::specs::Plans::line_of))]
fn line_of(line: &[u8]) -> Result<Option<(&[u8], Room)>, PlanCause>
    ensures value { line_seen result ≡ spelled_line line.now }
    ensures printable { IfOk result
        (λ said. IfSome said (λ e. IsTrue (list_all is_printable e.0.now))) }
{
    if is_skipped(line) {
        return Ok(None);
    }
    if !all_printable(line) {
        return Err(PlanCause::Word);
    }
    Ok(Some(said(line)?))
}

/// The modules that some lines have named, and where memory for more comes from.
#[derive(Drop)]
struct PlanDraft {
    alloc: Global,
    list: ModuleList,
}

impl Model for PlanDraft {
    ghost use Rattle.std.specs.Prelude.{List};
    ghost use Rattle.f8_link.specs.Plans.{PlannedModule};

    ghost Value = { List PlannedModule };

    ghost view = { λ d. d.list };
}

impl LineDraft for PlanDraft {
    ghost use Rattle.f8_link.specs.Plans.{read_line, TakesMemory};

    type Cause = PlanCause;

    ghost after_line = { read_line };

    ghost takes_memory = { TakesMemory };

    #[tactic(auto, unfolding(crate::specs::Plans::read_line))]
    fn read_line(&mut self, line: &[u8]) -> Result<(), ReadError<PlanCause>> {
        match line_of(line) {
            Ok(Some((file, room))) => self.list.say(self.alloc, file, room),
            Ok(None) => Ok(()),
            Err(cause) => Err(ReadError::Fault(cause)),
        }
    }
}

/// The plan of a text, or the text's first fault: that of the first line that has one, and of such a line's faults the first in the order
/// Word, Number, Range, TooMany. Blank lines and those that begin with `#` are skipped. A text without a module is at fault at the line after
/// its last. `Memory`: memory is missing.
pub fn read_plan(alloc: Global, text: &[u8]) -> Result<ModuleList, PlanAnswer>
    requires { length text.now ≤ 16777216 }
    ensures { SaysSeen (λ plan. plan) result (plan_of text.now) }
{
    let mut draft = PlanDraft {
        alloc,
        list: ModuleList::new(alloc),
    };
    let count = read_lines(&mut draft, text)?;
    if draft.list.as_slice().is_empty() {
        return Err(PlanAnswer::Fault(PlanFault {
            line: count + 1,
            cause: PlanCause::NoModule,
        }));
    }
    Ok(draft.list)
}
