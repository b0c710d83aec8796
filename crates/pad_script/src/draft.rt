// What is known after some lines.
ghost use Rattle.std.specs.Prelude.{◌≡◌, ◌<◌, ◌≤◌, ◌+◌, [], ◌∷◌, IfSome, length, option_map};
ghost use Rattle.text_lines.specs.ReadErrors.{OnMemory, StepsTo};
ghost use Rattle.pad_script.specs.FirstFault.{counted_lines};
ghost use Rattle.pad_script.specs.Limits.{HasLimits, IsLimited};
ghost use Rattle.pad_script.specs.Reading.{script_in, is_full, no_draft, read_line, said_with, seen};

use super::answers::ScriptCause;
use super::event_list::EventList;
use super::script::{End, Script};
use super::show_list::ShowList;
use super::statement::{Statement, line_of};
use line_words::LineDraft;
use std::alloc::Global;
use std::marker::Model;
use text_lines::ReadError;

/// The most lines of events and shown frames.
const MOST_LINES: usize = 1024;

/// What some lines have said.
#[derive(Drop)]
pub struct Draft {
    power: Option<u8>,
    end: Option<End>,
    events: EventList,
    shows: Vec<u32>,
}

impl Model for Draft {
    ghost use Rattle.std.specs.Prelude.{◌+◌, ◌≤◌, IfSome, length};
    ghost use Rattle.pad_script.specs.Limits.{HasLimits};
    ghost use Rattle.pad_script.specs.Reading.{Draft};

    ghost Value = { Draft };

    ghost view = { λ d. record { power = d.power; end = d.end; events = d.events; shows = d.shows.items } };

    ghost invariant = { λ d. (length d.events + length d.shows.items ≤ 1024)
        × IfSome d.end HasLimits };
}

impl Draft {
    /// Nothing has been said before the first line.
    #[tactic(auto, unfolding(crate::specs::Reading::no_draft))]
    pub fn new(alloc: Global) -> Draft
        ensures { result ≡ no_draft }
    {
        Draft {
            power: None,
            end: None,
            events: EventList::new(alloc),
            shows: Vec::new(alloc),
        }
    }

    /// There is no room for a line of an event or a shown frame.
    fn is_full(&self) -> bool
        ensures { result ≡ is_full self.now }
    {
        self.events.len() + self.shows.len() == MOST_LINES
    }

    /// One line more says something. Memory is wanting only where that is an event or a shown frame.
    #[tactic(auto, unfolding(crate::specs::Reading::said_with))]
    fn say(&mut self, statement: Statement) -> Result<(), ReadError<ScriptCause>>
        requires limits { IsLimited statement }
        ensures steps { StepsTo result self.new (said_with self.old statement) }
        ensures memory { OnMemory result (0 < counted_lines (statement ∷ [])) }
    {
        match statement {
            Statement::Power(byte) => {
                if self.power.is_some() {
                    return Err(ReadError::Fault(ScriptCause::Twice));
                }
                self.power = Some(byte);
            }
            Statement::Ends(end) => {
                if self.end.is_some() {
                    return Err(ReadError::Fault(ScriptCause::Twice));
                }
                self.end = Some(end);
            }
            Statement::Comes(at) => {
                if self.is_full() {
                    return Err(ReadError::Fault(ScriptCause::TooMany));
                }
                self.events.push(at)?;
            }
            Statement::Shows(frame) => {
                if self.is_full() {
                    return Err(ReadError::Fault(ScriptCause::TooMany));
                }
                self.shows.push(frame)?;
            }
        }
        Ok(())
    }

    /// The script, if there is an end of the run. This takes no memory.
    #[tactic(auto, unfolding(crate::specs::Reading::script_in))]
    pub fn finish(self) -> Option<Script>
        ensures script { option_map seen result ≡ script_in self }
        ensures limit { IfSome result
            (λ script. length script.events + length script.shows ≤ 1024) }
        ensures ends { IfSome result (λ script. HasLimits script.end) }
    {
        Some(Script {
            power: self.power.unwrap_or(0),
            end: self.end?,
            events: self.events,
            shows: ShowList::from_vec(self.shows),
        })
    }
}

impl LineDraft for Draft {
    ghost use Rattle.pad_script.specs.FirstFault.{IsCounted};
    ghost use Rattle.pad_script.specs.Reading.{read_line};

    type Cause = ScriptCause;

    ghost after_line = { read_line };

    ghost takes_memory = { IsCounted };

    #[tactic(auto, unfolding(crate::specs::Reading::read_line))]
    fn read_line(&mut self, line: &[u8]) -> Result<(), ReadError<ScriptCause>> {
        match line_of(line) {
            Ok(Some(statement)) => self.say(statement),
            Ok(None) => Ok(()),
            Err(cause) => Err(ReadError::Fault(cause)),
        }
    }
}
