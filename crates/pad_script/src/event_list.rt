// The events of a script.
ghost use Rattle.std.specs.Prelude.{◌≡◌, ◌<◌, ◌≤◌, [], ◌∷◌, ◌++◌, length, slice_get, OnOk, OnErr};
ghost use Rattle.console_spec.specs.FreeRuns.{HasByte};
ghost use Rattle.pad_script.specs.Limits.{HaveBytes};

use super::script::At;
use console_spec::Event;
use std::alloc::{AllocError, Global};
use std::marker::Model;

/// The events of a script, in the order of its text, at most 1,024. Contracts see the list of them.
#[derive(Debug, Drop)]
pub struct EventList {
    items: Vec<At>,
}

impl Model for EventList {
    ghost use Rattle.std.specs.Prelude.{List, ◌≤◌, length};
    ghost use Rattle.console_spec.specs.declared.At.{At};
    ghost use Rattle.pad_script.specs.Limits.{HaveBytes};

    ghost Value = { List At };

    ghost view = { λ e. e.items.items };

    ghost invariant = { λ e. (length e.items.items ≤ 1024) × HaveBytes e.items.items };
}

impl EventList {
    /// No event. This takes no memory.
    pub fn new(alloc: Global) -> EventList
        ensures { result ≡ [] }
    {
        EventList {
            items: Vec::new(alloc),
        }
    }

    /// Adds an event behind the others.
    ///
    /// # Errors
    ///
    /// Memory is missing.
    pub fn push(&mut self, at: At) -> Result<(), AllocError>
        requires room { length self.old < 1024 }
        ensures ok { OnOk result (self.new ≡ self.old ++ at ∷ []) }
        ensures err { OnErr result (self.new ≡ self.old) }
    {
        byte_law(at.event);
        self.items.push(at)?;
        Ok(())
    }

    /// All of the events.
    pub fn as_slice(&self) -> &[At]
        ensures events { result.now ≡ self.now }
        ensures limit { length self.now ≤ 1024 }
        ensures bytes { HaveBytes self.now }
    {
        self.items.as_slice()
    }

    /// How many events there are.
    pub fn len(&self) -> usize
        ensures count { result ≡ length self.now }
        ensures limit { result ≤ 1024 }
    {
        self.items.len()
    }

    /// The event at a place, counted from 0.
    pub fn get(&self, place: usize) -> Option<At>
        ensures { result ≡ slice_get self.now place }
    {
        self.items.get(place).copied()
    }
}

/// What a port gets from outside is a byte. This call does nothing; its contract is the law.
fn byte_law(event: Event)
    ensures { HasByte event }
{}
