// The commands of a file.
ghost use Rattle.std.specs.Prelude.{◌≡◌, ◌≤◌, length, slice_get};
ghost use Rattle.chip_debug.specs.Limits.{AreCommands, most_instructions, rooms_of, total_of};

use super::command::Command;
use std::marker::Model;

/// The commands of a file, in the order of its text. Their numbers are in range, and they ask for at most 10,000,000 instructions.
/// Contracts see the list of them.
#[derive(Debug, Drop)]
pub struct CommandList {
    items: Vec<Command>,
}

impl Model for CommandList {
    ghost use Rattle.std.specs.Prelude.{List, ◌≤◌};
    ghost use Rattle.chip_debug.specs.Limits.{AreCommands, most_instructions, total_of};
    ghost use Rattle.chip_debug.specs.declared.command.Command.{Command};

    ghost Value = { List Command };

    ghost view = { λ c. c.items.items };

    ghost invariant = { λ c. AreCommands c.items.items × (total_of c.items.items ≤ most_instructions) };
}

impl CommandList {
    /// The commands of a vector, which is kept as it is.
    pub fn from_vec(items: Vec<Command>) -> CommandList
        requires ranges { AreCommands items.items }
        requires total { total_of items.items ≤ most_instructions }
        ensures { result ≡ items.items }
    {
        CommandList { items }
    }

    /// All of the commands.
    pub fn as_slice(&self) -> &[Command]
        ensures commands { result.now ≡ self.now }
        ensures ranges { AreCommands self.now }
        ensures total { total_of self.now ≤ most_instructions }
    {
        self.items.as_slice()
    }

    /// How many commands there are.
    pub fn len(&self) -> usize
        ensures { result ≡ length self.now }
    {
        self.items.len()
    }

    /// The command at a place, counted from 0.
    pub fn get(&self, place: usize) -> Option<Command>
        ensures { result ≡ slice_get self.now place }
    {
        self.items.get(place).copied()
    }

    /// How many key bytes and pulses the commands have come.
    pub(crate) fn rooms(&self) -> usize
        ensures { result ≡ rooms_of self.now }
    {
        let mut rooms = 0;
        for command in &self.items {
            rooms += command.room();
        }
        rooms
    }
}
