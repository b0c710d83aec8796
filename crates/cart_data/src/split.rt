// The tracked registers of a cartridge.
ghost use Rattle.std.specs.Prelude.{◌≡◌, ◌<◌, ◌≤◌, ◌==◌, ◌++◌, [], ◌∷◌, length, slice_get, false};
ghost use Rattle.cart_data.specs.Splits.{IsSplit, is_among};

use abs_domain::MOST_TRACKED;
use std::marker::Model;

/// The registers of the scratchpad that the checker tracks: at most 8, all different, each below 64. Contracts see the list of them.
#[derive(Debug, Drop)]
pub struct Split {
    registers: [u8; MOST_TRACKED],
    len: usize,
}

impl Model for Split {
    ghost use Rattle.std.specs.Prelude.{ℕ, List, ◌≤◌, ◌≡◌, length, take};
    ghost use Rattle.cart_data.specs.Splits.{IsSplit};

    ghost Value = { List ℕ };

    ghost view = { λ s. take s.len s.registers };

    ghost invariant = { λ s. (s.len ≤ 8) × (length s.registers ≡ 8) × IsSplit (take s.len s.registers) };
}

impl Split {
    /// No register.
    pub fn new() -> Split
        ensures { result ≡ [] }
    {
        Split {
            registers: [0; MOST_TRACKED],
            len: 0,
        }
    }

    /// All of the registers.
    pub fn as_slice(&self) -> &[u8]
        ensures value { result.now ≡ self.now }
        ensures limits { IsSplit result.now }
    {
        &self.registers[..self.len]
    }

    /// How many registers there are.
    pub fn len(&self) -> usize
        ensures count { result ≡ length self.now }
        ensures limit { result ≤ 8 }
    {
        self.len
    }

    /// There is no register.
    pub fn is_empty(&self) -> bool
        ensures { result ≡ (length self.now == 0) }
    {
        self.len == 0
    }

    /// The register at a place, and `None` past the last.
    pub fn get(&self, place: usize) -> Option<u8>
        ensures { result ≡ slice_get self.now place }
    {
        self.as_slice().get(place).copied()
    }

    /// The register is one of them.
    pub fn contains(&self, register: u8) -> bool
        ensures { result ≡ is_among self.now register }
    {
        self.as_slice().iter().any(|other| *other == register)
    }

    /// Adds a register behind the others.
    pub fn push(&mut self, register: u8)
        requires few { length self.old < 8 }
        requires below { register < 64 }
        requires other { is_among self.old register ≡ false }
        ensures { self.new ≡ self.old ++ register ∷ [] }
    {
        let len = self.len;
        self.registers[len] = register;
        self.len = len + 1;
    }
}
