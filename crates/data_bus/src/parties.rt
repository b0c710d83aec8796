// The chips that drive or take in one bus step.
ghost use Rattle.std.specs.Prelude.{◌≡◌, ◌<◌, ◌≤◌, ◌+◌, ◌==◌, ◌++◌, [], ◌∷◌, length, slice_get};

use chip_face::MOST_CHIPS;
use f8_spec::Party;
use std::marker::Model;

/// The chips that drive or take a byte in one bus step, at most 16, in the order in which they were added. A bus step adds them by
/// ascending sockets. Contracts see the list.
#[derive(Debug, Drop)]
pub struct Parties {
    items: [Party; MOST_CHIPS],
    len: usize,
}

impl Model for Parties {
    ghost use Rattle.std.specs.Prelude.{List, ◌≤◌, ◌≡◌, length, take};
    ghost use Rattle.f8_spec.specs.declared.bus.Party.{Party};

    ghost Value = { List Party };

    ghost view = { λ p. take p.len p.items };

    ghost invariant = { λ p. (p.len ≤ 16) × (length p.items ≡ 16) };
}

impl Parties {
    /// No party.
    pub fn new() -> Parties
        ensures { result ≡ [] }
    {
        Parties {
            items: [Party { socket: 0, at: 0 }; MOST_CHIPS],
            len: 0,
        }
    }

    /// These parties.
    pub(crate) fn of(parties: &[Party]) -> Parties
        requires { length parties.now ≤ MOST_CHIPS }
        ensures { result ≡ parties.now }
    {
        let mut all = Parties::new();
        for party in parties {
            all.push(*party);
        }
        all
    }

    /// Adds a party behind the others.
    pub fn push(&mut self, party: Party)
        requires { length self.old < MOST_CHIPS }
        ensures { self.new ≡ self.old ++ party ∷ [] }
    {
        let len = self.len;
        self.items[len] = party;
        self.len = len + 1;
    }

    /// All of them.
    pub fn as_slice(&self) -> &[Party]
        ensures value { result.now ≡ self.now }
        ensures few { length result.now ≤ MOST_CHIPS }
    {
        let len = self.len;
        &self.items[..len]
    }

    /// How many there are.
    pub fn len(&self) -> usize
        ensures value { result ≡ length self.now }
        ensures few { result ≤ MOST_CHIPS }
    {
        self.len
    }

    /// There is none.
    pub fn is_empty(&self) -> bool
        ensures { result ≡ (length self.now == 0) }
    {
        self.len == 0
    }

    /// The chip at a place, and `None` past the last.
    pub fn get(&self, place: usize) -> Option<Party>
        ensures { result ≡ slice_get self.now place }
    {
        self.as_slice().get(place).copied()
    }

    /// The same parties.
    pub fn copy(&self) -> Parties
        ensures { result ≡ self.now }
    {
        Parties {
            items: self.items,
            len: self.len,
        }
    }
}
