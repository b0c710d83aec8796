// Sets of bytes.
ghost use Rattle.std.specs.Prelude.{◌≡◌};
ghost use Rattle.value_sets.specs.SetViews.{byte_values};
ghost use Rattle.value_sets.specs.ValueSets.{has, is_within, joined, single};

use super::numbers::{are_among, is_among, only, union_of};
use arrayvec::ArrayVec;

/// The most bytes that a set lists.
pub const MOST_BYTES: usize = 16;

/// The bytes that a part may hold: those of a list, or any at all.
#[derive(Clone, Debug, Drop)]
pub enum ByteSet {
    Any,
    Among(ArrayVec<u8, MOST_BYTES>),
}

impl ByteSet {
    /// Whether the set has a byte.
    #[inline]
    pub fn has(&self, byte: u8) -> bool
        ensures { result ≡ has (byte_values self.now) byte }
    {
        match self {
            ByteSet::Any => true,
            ByteSet::Among(bytes) => is_among(bytes.as_slice(), byte),
        }
    }

    /// The byte of a set that has one alone.
    #[inline]
    pub fn single(&self) -> Option<u8>
        ensures { result ≡ single (byte_values self.now) }
    {
        match self {
            ByteSet::Any => None,
            ByteSet::Among(bytes) => only(bytes.as_slice()),
        }
    }

    /// Whether the upper set has all that this one has. A list never has any byte at all.
    #[inline]
    pub fn is_within(&self, upper: &ByteSet) -> bool
        ensures { result ≡ is_within (byte_values self.now) (byte_values upper.now) }
    {
        match (self, upper) {
            (_, ByteSet::Any) => true,
            (ByteSet::Any, ByteSet::Among(_)) => false,
            (ByteSet::Among(lower), ByteSet::Among(bytes)) => are_among(
                bytes.as_slice(),
                lower.as_slice(),
            ),
        }
    }

    /// What either set has, and any byte at all where that is more than a list may have. Lists that ascend are joined to one that does.
    pub fn joined(self, more: &ByteSet) -> ByteSet
        ensures { byte_values result ≡ joined MOST_BYTES (byte_values self) (byte_values more.now) }
    {
        let (ByteSet::Among(bytes), ByteSet::Among(others)) = (self, more) else {
            return ByteSet::Any;
        };
        match union_of(bytes, others.as_slice()) {
            Some(bytes) => ByteSet::Among(bytes),
            None => ByteSet::Any,
        }
    }
}
