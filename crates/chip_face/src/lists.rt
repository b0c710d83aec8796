// Lists that stay as they were made: of bytes, and of pages.
ghost use Rattle.std.specs.Prelude.{ℕ, ◌≡◌, ◌<◌, ◌==◌, IfOk, length, slice_get, slice_index};

use f8_spec::{Memory, Page};
use std::alloc::Global;
use std::marker::Model;

/// The bytes of a ROM.
pub type Bytes = FixedList<u8>;

/// The pages of a chip.
pub type PageList = FixedList<Page>;

/// Items that stay as they were given. Contracts see the list of them.
#[derive(Debug, Drop)]
pub struct FixedList<T> {
    items: Vec<T>,
}

impl<T> Model for FixedList<T> {
    ghost use Rattle.std.specs.Prelude.{List};

    ghost Value = { List T };

    ghost view = { λ l. l.items.items };
}

impl<T: Copy> FixedList<T> {
    /// The items of a vector, which is kept as it is.
    pub fn from_vec(items: Vec<T>) -> FixedList<T>
        ensures { result ≡ items.items }
    {
        FixedList { items }
    }

    /// A copy of some items, or want of memory.
    pub fn of(alloc: Global, items: &[T]) -> Result<FixedList<T>, Memory>
        ensures { IfOk result (λ copied. copied ≡ items.now) }
    {
        match items.iter().copied().collect(alloc) {
            Ok(items) => Ok(FixedList { items }),
            Err(_) => Err(Memory),
        }
    }

    /// All of the items.
    pub fn as_slice(&self) -> &[T]
        ensures { result.now ≡ self.now }
    {
        self.items.as_slice()
    }

    /// How many items there are.
    pub fn len(&self) -> usize
        ensures { result ≡ length self.now }
    {
        self.items.len()
    }

    /// There is no item.
    pub fn is_empty(&self) -> bool
        ensures { result ≡ (length self.now == 0) }
    {
        self.items.is_empty()
    }

    /// The item at a place, and `None` past the last.
    pub fn get(&self, place: usize) -> Option<T>
        ensures { result ≡ slice_get self.now place }
    {
        self.items.get(place).copied()
    }
}

impl FixedList<u8> {
    /// All of the bytes, each below 256.
    pub fn as_bytes(&self) -> &[u8]
        ensures same { result.now ≡ self.now }
        ensures below { (place : ℕ) → slice_index self.now place < 256 }
    {
        // By its type each item of a slice with a name is below 256.
        let bytes = self.as_slice();
        bytes
    }
}
