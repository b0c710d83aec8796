//! The bus steps of an instruction, in a record of its own.
ghost use Rattle.std.specs.Prelude.{◌≡◌, ◌<◌, ◌≤◌, ◌==◌, ◌++◌, [], ◌∷◌, length, slice_get};
ghost use Rattle.f8_machine.specs.HeardSteps.{HaveBytes};

use super::Heard;
use console_spec::Who;
use romc_table::Romc;
use std::marker::Model;

/// How many bus steps a record has room for: those of an instruction and of an interrupt at its end, which never are more (this
/// project's own, after the Fairchild F8 User's Guide).
pub const MOST_HEARD: usize = 9;

/// The served bus steps of an instruction or of reset, in order. Contracts see the list.
#[derive(Debug, Drop)]
pub struct Record {
    items: [Heard; MOST_HEARD],
    len: usize,
}

impl Model for Record {
    ghost use Rattle.std.specs.Prelude.{List, ◌≤◌, ◌≡◌, length, take};
    ghost use Rattle.f8_machine.specs.declared.heard.Heard.{Heard};
    ghost use Rattle.f8_machine.specs.declared.record.TheConstants.{MOST_HEARD};
    ghost use Rattle.f8_machine.specs.HeardSteps.{HaveBytes};

    ghost Value = { List Heard };

    ghost view = { λ r. take r.len r.items };

    ghost invariant = { λ r.
        (r.len ≤ MOST_HEARD) × (length r.items ≡ MOST_HEARD) × HaveBytes (take r.len r.items) };
}

impl Record {
    /// No step. The places behind the steps are zeros throughout, which are set at one stroke.
    pub fn new() -> Record
        ensures { result ≡ [] }
    {
        Record {
            items: [Heard {
                romc: Romc::FETCH,
                long: false,
                byte: 0,
                who: Who::Cpu,
                taker: None,
            }; MOST_HEARD],
            len: 0,
        }
    }

    /// Adds a step behind the others.
    pub fn push(&mut self, step: Heard)
        requires { length self.old < MOST_HEARD }
        ensures { self.new ≡ self.old ++ step ∷ [] }
    {
        let len = self.len;
        self.items[len] = step;
        self.len = len + 1;
    }

    /// All of them.
    pub fn as_slice(&self) -> &[Heard]
        ensures value { result.now ≡ self.now }
        ensures few { length result.now ≤ MOST_HEARD }
        ensures bytes { HaveBytes result.now }
    {
        let len = self.len;
        &self.items[..len]
    }

    /// Their bytes are bytes, which holds of each record. This call does nothing; its contract is the law.
    pub(crate) fn bytes_law(&self)
        ensures { HaveBytes self.now }
    {
        let _len = self.len;
    }

    /// How many there are.
    pub fn len(&self) -> usize
        ensures value { result ≡ length self.now }
        ensures few { result ≤ MOST_HEARD }
    {
        self.len
    }

    /// There is none.
    pub fn is_empty(&self) -> bool
        ensures { result ≡ (length self.now == 0) }
    {
        self.len == 0
    }

    /// The step at a place, and `None` past the last.
    pub fn get(&self, place: usize) -> Option<Heard>
        ensures { result ≡ slice_get self.now place }
    {
        self.as_slice().get(place).copied()
    }
}
