//! The chips described, by the sockets in which they stand.
ghost use Rattle.std.specs.Prelude.{◌≡◌, ◌<◌, ◌≤◌, ◌==◌, false, ◌++◌, [], ◌∷◌, length, slice_get};
ghost use Rattle.std.specs.List.{list_any};
ghost use Rattle.f8_machine.specs.Chains.{AreDistinct};

use chip_face::MOST_CHIPS;
use std::marker::Model;

/// The sockets of the chips of a description, in its order: no socket stands twice, and there are at most 16. Contracts see the list.
#[derive(Debug, Drop)]
pub struct Chain {
    sockets: [u8; MOST_CHIPS],
    len: usize,
}

impl Model for Chain {
    ghost use Rattle.std.specs.Prelude.{ℕ, List, ◌≤◌, ◌≡◌, length, take};
    ghost use Rattle.chip_face.specs.declared.sizes.TheConstants.{MOST_CHIPS};
    ghost use Rattle.f8_machine.specs.Chains.{AreDistinct};

    ghost Value = { List ℕ };

    ghost view = { λ c. take c.len c.sockets };

    ghost invariant = { λ c.
        (c.len ≤ MOST_CHIPS) × (length c.sockets ≡ MOST_CHIPS) × AreDistinct (take c.len c.sockets) };
}

impl Chain {
    /// No socket.
    pub fn new() -> Chain
        ensures { result ≡ [] }
    {
        Chain {
            sockets: [0; MOST_CHIPS],
            len: 0,
        }
    }

    /// Adds a socket that isn't among them, behind the others.
    pub fn push(&mut self, socket: u8)
        requires room { length self.old < MOST_CHIPS }
        requires fresh { list_any (λ held. held == socket) self.old ≡ false }
        ensures { self.new ≡ self.old ++ socket ∷ [] }
    {
        let len = self.len;
        self.sockets[len] = socket;
        self.len = len + 1;
    }

    /// The socket is among them.
    pub fn contains(&self, socket: u8) -> bool
        ensures { result ≡ list_any (λ held. held == socket) self.now }
    {
        self.as_slice().contains(&socket)
    }

    /// The same sockets once more.
    pub fn copy(&self) -> Chain
        ensures { result ≡ self.now }
    {
        Chain {
            sockets: self.sockets,
            len: self.len,
        }
    }

    /// All of them.
    pub fn as_slice(&self) -> &[u8]
        ensures value { result.now ≡ self.now }
        ensures few { length result.now ≤ MOST_CHIPS }
        ensures distinct { AreDistinct result.now }
    {
        let len = self.len;
        &self.sockets[..len]
    }

    /// How many there are.
    pub fn len(&self) -> usize
        ensures value { result ≡ length self.now }
        ensures few { result ≤ MOST_CHIPS }
    {
        self.len
    }

    /// There is none.
    pub fn is_empty(&self) -> bool
        ensures { result ≡ (length self.now == 0) }
    {
        self.len == 0
    }

    /// The socket in a place, and `None` past the last.
    pub fn get(&self, place: usize) -> Option<u8>
        ensures { result ≡ slice_get self.now place }
    {
        self.as_slice().get(place).copied()
    }
}
