// The frames that a script shows.
ghost use Rattle.std.specs.Prelude.{◌≡◌, ◌≤◌, length, slice_get, vec_len};

use std::marker::Model;

/// The frames that a script shows, in the order of its text, at most 1,024. One frame can stand there more than once. Contracts see the list of their numbers.
#[derive(Debug, Drop)]
pub struct ShowList {
    items: Vec<u32>,
}

impl Model for ShowList {
    ghost use Rattle.std.specs.Prelude.{ℕ, List, ◌≤◌, length};

    ghost Value = { List ℕ };

    ghost view = { λ s. s.items.items };

    ghost invariant = { λ s. length s.items.items ≤ 1024 };
}

impl ShowList {
    /// The frames of a vector, which is kept as it is.
    pub fn from_vec(items: Vec<u32>) -> ShowList
        requires { vec_len items ≤ 1024 }
        ensures { result ≡ items.items }
    {
        ShowList { items }
    }

    /// All of the frames.
    pub fn as_slice(&self) -> &[u32]
        ensures frames { result.now ≡ self.now }
        ensures limit { length self.now ≤ 1024 }
    {
        self.items.as_slice()
    }

    /// How many frames there are.
    pub fn len(&self) -> usize
        ensures count { result ≡ length self.now }
        ensures limit { result ≤ 1024 }
    {
        self.items.len()
    }

    /// The frame at a place, counted from 0.
    pub fn get(&self, place: usize) -> Option<u32>
        ensures { result ≡ slice_get self.now place }
    {
        self.items.get(place).copied()
    }
}
