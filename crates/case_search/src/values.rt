// The values of a part behind an instruction, of which no set is made before it is needed.
use abs_domain::{SCRATCHPAD_SIZE, Val, Word};
use arrayvec::ArrayVec;
use std::alloc::{AllocError, Global};
use value_sets::{ByteSet, WordSet, are_among, is_among, only};

/// The values of a byte: one, those of a set, or any.
#[derive(Clone, Copy)]
pub enum Bytes<'a> {
    One(u8),
    Of(&'a ByteSet),
    Any,
}

impl<'a> Bytes<'a> {
    /// What the step gives of a part that is written; of another one what the case has, or the entry.
    #[inline]
    pub fn behind(written: bool, after: Val, before: Val, values: &'a ByteSet) -> Bytes<'a> {
        match if written { after } else { before } {
            Val::Known(byte) => Bytes::One(byte),
            Val::Any if written => Bytes::Any,
            Val::Any => Bytes::Of(values),
        }
    }

    /// They all are values of a set.
    #[inline]
    pub fn are_within(self, upper: &ByteSet) -> bool {
        match self {
            Bytes::One(byte) => upper.has(byte),
            Bytes::Of(values) => values.is_within(upper),
            Bytes::Any => ByteSet::Any.is_within(upper),
        }
    }

    /// The value of one alone.
    #[inline]
    pub fn single(self) -> Option<u8> {
        match self {
            Bytes::One(byte) => Some(byte),
            Bytes::Of(values) => values.single(),
            Bytes::Any => None,
        }
    }

    /// They as a set.
    pub fn set(self) -> Result<ByteSet, AllocError> {
        match self {
            Bytes::One(byte) => {
                let mut bytes = ArrayVec::new();
                bytes.push(byte);
                Ok(ByteSet::Among(bytes))
            },
            Bytes::Of(values) => values.clone(),
            Bytes::Any => Ok(ByteSet::Any),
        }
    }
}

/// The values of a word: one, those of a set, or any.
#[derive(Clone, Copy)]
pub enum Words<'a> {
    One(u16),
    Of(&'a WordSet),
    Any,
}

impl<'a> Words<'a> {
    /// What the step gives of a part that is written; of another one what the case has, or the entry.
    #[inline]
    pub fn behind(written: bool, after: Word, before: Word, values: &'a WordSet) -> Words<'a> {
        match if written { after } else { before } {
            Word::Known(at) => Words::One(at),
            Word::Any if written => Words::Any,
            Word::Any => Words::Of(values),
        }
    }

    /// They all are values of a set.
    #[inline]
    pub fn are_within(self, upper: &WordSet) -> bool {
        match self {
            Words::One(at) => upper.has(at),
            Words::Of(values) => values.is_within(upper),
            Words::Any => WordSet::Any.is_within(upper),
        }
    }

    /// The value of one alone.
    #[inline]
    pub fn single(self) -> Option<u16> {
        match self {
            Words::One(at) => Some(at),
            Words::Of(values) => values.single(),
            Words::Any => None,
        }
    }

    /// They as a set.
    pub fn set(self, alloc: Global) -> Result<WordSet, AllocError> {
        match self {
            Words::One(at) => {
                let mut words = Vec::new(alloc);
                words.push(at)?;
                Ok(WordSet::Among(words))
            },
            Words::Of(values) => values.clone(),
            Words::Any => Ok(WordSet::Any),
        }
    }
}

/// The numbers that ISAR may have: one, or those of a list.
#[derive(Clone, Copy)]
pub enum Numbers<'a> {
    One(u8),
    Of(&'a [u8]),
    Any,
}

impl<'a> Numbers<'a> {
    /// They all are in a list, of which no number is there twice: one of 64 has all.
    pub fn are_among(self, upper: &[u8]) -> bool {
        if upper.len() >= SCRATCHPAD_SIZE {
            return true;
        }
        match self {
            Numbers::One(number) => is_among(upper, number),
            Numbers::Of(numbers) => are_among(upper, numbers),
            Numbers::Any => false,
        }
    }

    /// The number of one alone.
    pub fn single(self) -> Option<u8> {
        match self {
            Numbers::One(number) => Some(number),
            Numbers::Of(numbers) => only(numbers),
            Numbers::Any => None,
        }
    }
}
