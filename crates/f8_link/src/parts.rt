// Modules in their rooms.
ghost use Rattle.std.specs.Prelude.{◌≡◌};

use crate::objects::Object;
use f8_asm::Room;
use std::alloc::{AllocError, Global};
use std::marker::Model;

/// A module, and the addresses where it may lie. It begins at the room's first.
#[derive(Drop)]
pub struct Part {
    pub object: Object,
    pub room: Room,
}

/// Modules in order. A contract sees that list.
#[derive(Drop)]
pub struct PartList {
    parts: Vec<Part>,
}

impl Model for PartList {
    ghost use Rattle.std.specs.Prelude.{List};
    ghost use Rattle.f8_link.specs.declared.parts.Part.{Part};

    ghost Value = { List Part };

    ghost view = { λ l. l.parts.items };
}

impl PartList {
    ghost use Rattle.std.specs.Prelude.{◌≡◌, ◌∷◌, ◌++◌, [], OnOk, OnErr};

    /// No module.
    pub fn new(alloc: Global) -> PartList
        ensures { result ≡ [] }
    {
        PartList {
            parts: Vec::new(alloc),
        }
    }

    /// Adds a module behind the others. The one error is want of memory, and nothing has changed then.
    pub fn push(&mut self, part: Part) -> Result<(), AllocError>
        ensures more { OnOk result (self.new ≡ self.old ++ part ∷ []) }
        ensures same { OnErr result (self.new ≡ self.old) }
    {
        self.parts.push(part)?;
        Ok(())
    }

    /// The list of these modules.
    pub fn from_vec(parts: Vec<Part>) -> PartList
        ensures { result ≡ parts.items }
    {
        PartList { parts }
    }

    /// The modules in order.
    pub fn as_slice(&self) -> &[Part]
        ensures { result.now ≡ self.now }
    {
        self.parts.as_slice()
    }
}
