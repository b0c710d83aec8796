// The replay log: what was done since power-on, to be done again.
ghost use Rattle.std.specs.Prelude.{◌≡◌, ◌+◌, ◌<◌, List, [], ◌∷◌, ◌++◌, IfOk, IfSome, IfNone, slice_get};

use super::entry::Entry;
use console_spec::Event;
use f8_spec::Memory;
use std::alloc::Global;
use std::marker::Model;

/// An event, and how many instructions were done before it.
#[derive(Clone, Copy, Debug)]
struct Mark {
    after: u32,
    event: Event,
}

// The mark at a place.
fn mark_at(marks: &[Mark], place: usize) -> Option<Mark>
    ensures { result ≡ slice_get marks.now place }
{
    marks.get(place).copied()
}

/// What was done since power-on, entry by entry, with a place up to which it was played since it was last rewound. Instructions are
/// counted and not kept, so that only events need room, which is taken at once. Contracts see the entries that were played, those that are
/// left, and how many more events there is room for.
#[derive(Debug, Drop)]
pub struct Log {
    marks: Vec<Mark>,
    room: u32,

    /// All instructions.
    total: u32,

    /// The marks played.
    next: usize,

    /// The instructions played.
    place: u32,
}

impl Model for Log {
    ghost use Rattle.rewind.specs.LogEntries.{LogState};
    ghost use Rattle.rewind.specs.LogView.{log_state, IsKept};

    ghost Value = { LogState };

    ghost view = { log_state };

    ghost invariant = { IsKept };
}

impl Log {
    ghost use Rattle.rewind.specs.LogEntries.{events_in, instructions_in, IsAtEnd, Plays};
    ghost use Rattle.rewind.specs.declared.entry.Entry.TheVariants.{Happens, Instruction};

    /// An empty log with room for so many events, or want of memory: the room is taken here.
    pub fn with_room(alloc: Global, room: u32) -> Result<Log, Memory>
        ensures { IfOk result (λ log. log ≡ record { played = []; left = []; spare = room }) }
    {
        match Vec::with_capacity(alloc, room as usize) {
            Ok(marks) => Ok(Log {
                marks,
                room,
                total: 0,
                next: 0,
                place: 0,
            }),
            Err(_) => Err(Memory),
        }
    }

    /// Adds an event that has come, behind all entries. They must all be played, and there must be room.
    pub fn add_event(&mut self, event: Event)
        requires ended { self.old.left ≡ [] }
        requires room { 0 < self.old.spare }
        ensures played { self.new.played ≡ self.old.played ++ Happens event ∷ [] }
        ensures left { self.new.left ≡ [] }
        ensures spare { self.new.spare + 1 ≡ self.old.spare }
    {
        let _ = self.marks.push(Mark {
            after: self.place,
            event,
        });
        self.next += 1;
    }

    /// Adds an instruction that is done, behind all entries. They must all be played, and be fewer than 4,294,967,295 instructions.
    pub fn add_instruction(&mut self)
        requires ended { self.old.left ≡ [] }
        requires count { instructions_in self.old.played < 4294967295 }
        ensures { self.new ≡ record self.old { played = self.old.played ++ Instruction ∷ [] } }
    {
        self.total += 1;
        self.place += 1;
    }

    /// The entry that comes next, and none where all were played.
    pub fn next_entry(&self) -> Option<Entry>
        ensures { result ≡ slice_get self.now.left 0 }
    {
        match mark_at(&self.marks, self.next) {
            Some(mark) if mark.after == self.place => Some(Entry::Happens(mark.event)),
            _ if self.place < self.total => Some(Entry::Instruction),
            _ => None,
        }
    }

    /// Plays the entry that comes next, and tells it. Where all were played nothing changes.
    pub fn play(&mut self) -> Option<Entry>
        ensures some { IfSome result (λ entry. Plays entry self.old self.new) }
        ensures none { IfNone result (IsAtEnd self.old self.new) }
    {
        let entry = self.next_entry()?;
        match entry {
            Entry::Happens(_) => self.next += 1,
            Entry::Instruction => self.place += 1,
        }
        Some(entry)
    }

    /// Goes back to the start: all entries are left to play.
    pub fn rewind(&mut self)
        ensures { self.new ≡ record self.old { played = []; left = self.old.played ++ self.old.left } }
    {
        self.next = 0;
        self.place = 0;
    }

    /// Drops the entries that are left to play, and gives back the room of their events.
    pub fn cut(&mut self)
        ensures { self.new ≡ record {
          played = self.old.played;
          left = [];
          spare = self.old.spare + events_in self.old.left;
        } }
    {
        self.marks.truncate(self.next);
        self.total = self.place;
    }

    /// Drops all entries, and gives back the room of their events.
    pub fn clear(&mut self)
        ensures { self.new ≡ record {
          played = [];
          left = [];
          spare = self.old.spare + events_in (self.old.played ++ self.old.left);
        } }
    {
        self.rewind();
        self.cut();
    }

    /// How many instructions were played.
    pub fn place(&self) -> u32
        ensures { result ≡ instructions_in self.now.played }
    {
        self.place
    }

    /// How many instructions there are.
    pub fn length(&self) -> u32
        ensures { result ≡ instructions_in self.now.played + instructions_in self.now.left }
    {
        self.total
    }

    /// How many more events there is room for.
    pub fn spare(&self) -> u32
        ensures { result ≡ self.now.spare }
    {
        self.room - self.marks.len() as u32
    }
}
