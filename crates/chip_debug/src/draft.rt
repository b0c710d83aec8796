// The commands of some lines.
ghost use Rattle.std.specs.Prelude.{◌≡◌, []};
ghost use Rattle.text_lines.specs.ReadErrors.{StepsTo};
ghost use Rattle.chip_debug.specs.Limits.{IsCommand};
ghost use Rattle.chip_debug.specs.Reading.{said_with};

use super::answers::DebugCause;
use super::command::Command;
use super::command_line::line_of;
use super::command_list::CommandList;
use line_words::LineDraft;
use std::alloc::Global;
use std::marker::Model;
use text_lines::ReadError;

/// The most instructions that the commands of a file ask for.
const MOST_INSTRUCTIONS: u32 = 10_000_000;

/// The commands of some lines. Contracts see the list of them.
#[derive(Drop)]
pub(crate) struct Draft {
    commands: Vec<Command>,

    /// The instructions that they ask for.
    total: u32,
}

impl Model for Draft {
    ghost use Rattle.std.specs.Prelude.{List, ◌≡◌, ◌≤◌};
    ghost use Rattle.chip_debug.specs.Limits.{AreCommands, most_instructions, total_of};
    ghost use Rattle.chip_debug.specs.declared.command.Command.{Command};

    ghost Value = { List Command };

    ghost view = { λ d. d.commands.items };

    ghost invariant = { λ d. AreCommands d.commands.items
        × (d.total ≡ total_of d.commands.items) × (d.total ≤ most_instructions) };
}

impl Draft {
    /// Nothing has been said before the first line.
    pub(crate) fn new(alloc: Global) -> Draft
        ensures { result ≡ [] }
    {
        Draft {
            commands: Vec::new(alloc),
            total: 0,
        }
    }

    /// One command more.
    fn say(&mut self, command: Command) -> Result<(), ReadError<DebugCause>>
        requires within { IsCommand command }
        ensures steps { StepsTo result self.new (said_with self.old command) }
    {
        let total = self.total + command.count();
        if total > MOST_INSTRUCTIONS {
            return Err(ReadError::Fault(DebugCause::Total));
        }
        self.commands.push(command)?;
        self.total = total;
        Ok(())
    }

    /// All of the commands. This takes no memory.
    pub(crate) fn finish(self) -> CommandList
        ensures { result ≡ self }
    {
        CommandList::from_vec(self.commands)
    }
}

impl LineDraft for Draft {
    ghost use Rattle.chip_debug.specs.FirstFault.{HasCommand};
    ghost use Rattle.chip_debug.specs.Reading.{read_line};

    type Cause = DebugCause;

    ghost after_line = { read_line };

    ghost takes_memory = { HasCommand };

    #[tactic(auto, unfolding(crate::specs::Reading::read_line))]
    fn read_line(&mut self, line: &[u8]) -> Result<(), ReadError<DebugCause>> {
        match line_of(line) {
            Ok(Some(command)) => self.say(command),
            Ok(None) => Ok(()),
            Err(cause) => Err(ReadError::Fault(cause)),
        }
    }
}
