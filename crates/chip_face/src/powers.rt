// How the chips of a description are powered on.
ghost use Rattle.std.specs.Prelude.{◌≡◌, ◌≤◌, ◌<◌, ◌==◌, ◌++◌, [], ◌∷◌, length, replicate, slice_get};
ghost use Rattle.f8_spec.specs.Powers.{ArePowers, IsPower, usual_power};

use super::MOST_CHIPS;
use f8_spec::PowerOn;
use std::marker::Model;

/// As all chips are, of which nothing is said.
pub const USUAL_POWER: PowerOn = PowerOn {
    fill: None,
    start: None,
};

/// How the chips of a description are powered on, in its order: at most 16. Contracts see the list.
#[derive(Debug, Drop)]
pub struct Powers {
    items: [PowerOn; MOST_CHIPS],
    len: usize,
}

impl Model for Powers {
    ghost use Rattle.std.specs.Prelude.{List, ◌≤◌, ◌≡◌, length, take};
    ghost use Rattle.f8_spec.specs.Powers.{ArePowers};
    ghost use Rattle.f8_spec.specs.declared.chips.PowerOn.{PowerOn};
    ghost use Rattle.chip_face.specs.declared.sizes.TheConstants.{MOST_CHIPS};

    ghost Value = { List PowerOn };

    ghost view = { λ p. take p.len p.items };

    ghost invariant = { λ p.
        (p.len ≤ MOST_CHIPS) × (length p.items ≡ MOST_CHIPS) × ArePowers (take p.len p.items) };
}

impl Powers {
    /// Of no chip.
    pub fn new() -> Powers
        ensures { result ≡ [] }
    {
        Powers {
            items: [USUAL_POWER; MOST_CHIPS],
            len: 0,
        }
    }

    /// Of so many chips, of which nothing is said.
    pub fn usual(len: usize) -> Powers
        requires { len ≤ MOST_CHIPS }
        ensures { result ≡ replicate len usual_power }
    {
        Powers {
            items: [USUAL_POWER; MOST_CHIPS],
            len,
        }
    }

    /// Adds that of one more chip, behind the others.
    pub fn push(&mut self, power: PowerOn)
        requires { length self.old < MOST_CHIPS }
        ensures { self.new ≡ self.old ++ power ∷ [] }
    {
        ranges_law(power);
        let len = self.len;
        self.items[len] = power;
        self.len = len + 1;
    }

    /// The same once more.
    pub fn copy(&self) -> Powers
        ensures { result ≡ self.now }
    {
        Powers {
            items: self.items,
            len: self.len,
        }
    }

    /// All of them.
    pub fn as_slice(&self) -> &[PowerOn]
        ensures value { result.now ≡ self.now }
        ensures few { length result.now ≤ MOST_CHIPS }
        ensures limits { ArePowers result.now }
    {
        let len = self.len;
        &self.items[..len]
    }

    /// Of how many chips they are.
    pub fn len(&self) -> usize
        ensures { result ≡ length self.now }
    {
        self.len
    }

    /// They are of no chip.
    pub fn is_empty(&self) -> bool
        ensures { result ≡ (length self.now == 0) }
    {
        self.len == 0
    }

    /// That of the chip in a place, and `None` past the last.
    pub fn get(&self, place: usize) -> Option<PowerOn>
        ensures { result ≡ slice_get self.now place }
    {
        self.as_slice().get(place).copied()
    }
}

/// What is said are a byte and an address, by their types. This call does nothing; its contract is the law.
fn ranges_law(power: PowerOn)
    ensures { IsPower power }
{
    match (power.fill, power.start) {
        (Some(_), Some(_)) => {}
        (Some(_), None) => {}
        (None, Some(_)) => {}
        (None, None) => {}
    }
}
