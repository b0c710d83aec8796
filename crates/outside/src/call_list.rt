// A list of the calls of a store that are to fail.
ghost use Rattle.std.specs.Prelude.{◌≡◌, ◌==◌};
ghost use Rattle.std.specs.List.{list_any};

use std::marker::Model;

/// The calls of a store that are to fail, by their numbers from 1 on. Contracts see the list.
#[derive(Drop)]
pub struct CallList {
    calls: Vec<u64>,
}

impl Model for CallList {
    ghost use Rattle.std.specs.Prelude.{ℕ, List};

    ghost Value = { List ℕ };

    ghost view = { λ c. c.calls.items };
}

impl CallList {
    /// The calls of a vector, which is kept as it is.
    pub fn from_vec(calls: Vec<u64>) -> CallList
        ensures { result ≡ calls.items }
    {
        CallList { calls }
    }

    /// Whether a call is listed.
    pub fn has(&self, call: u64) -> bool
        ensures { result ≡ list_any (λ c. c == call) self.now }
    {
        self.calls.contains(&call)
    }
}
