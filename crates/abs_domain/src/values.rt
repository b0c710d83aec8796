// Parts of an abstract state, each known or not.
ghost use Rattle.std.specs.Prelude.{◌≡◌};
ghost use Rattle.abs_domain.specs.Lattice.{is_below, common, same_bool, same_number};
ghost use Rattle.abs_domain.specs.KnownParts.{known_byte, known_digit, known_bit, known_word};

/// A byte, known or not.
#[derive(Clone, Copy, Debug, PartialEq, Eq)]
pub enum Val {
    Known(u8),
    Any,
}

/// An octal digit of ISAR, known or not. In every state it is below 8 where it is known.
#[derive(Clone, Copy, Debug, PartialEq, Eq)]
pub enum Digit {
    Known(u8),
    Any,
}

/// A bit of the status word, known or not.
#[derive(Clone, Copy, Debug, PartialEq, Eq)]
pub enum Bit {
    Known(bool),
    Any,
}

/// The address in a counter, known or not.
#[derive(Clone, Copy, Debug, PartialEq, Eq)]
pub enum Word {
    Known(u16),
    Any,
}

impl Val {
    /// The byte, where it is known.
    #[inline]
    pub fn known(self) -> Option<u8>
        ensures { result ≡ known_byte self }
    {
        match self {
            Val::Known(byte) => Some(byte),
            Val::Any => None,
        }
    }

    /// The byte that both know.
    #[inline]
    pub fn join(self, other: Val) -> Val
        ensures { known_byte result ≡ common same_number (known_byte self) (known_byte other) }
    {
        match (self, other) {
            (Val::Known(first), Val::Known(second)) if first == second => self,
            _ => Val::Any,
        }
    }

    /// Whether the upper one says no more: it is unknown, or the same byte.
    #[inline]
    pub fn below(self, upper: Val) -> bool
        ensures { result ≡ is_below same_number (known_byte self) (known_byte upper) }
    {
        match upper {
            Val::Any => true,
            Val::Known(_) => self == upper,
        }
    }
}

impl From<Option<u8>> for Val {
    ghost from_gives = { λ byte part. known_byte part ≡ byte };

    #[inline]
    fn from(byte: Option<u8>) -> Val {
        match byte {
            Some(byte) => Val::Known(byte),
            None => Val::Any,
        }
    }
}

impl Digit {
    /// The digit, where it is known.
    #[inline]
    pub fn known(self) -> Option<u8>
        ensures { result ≡ known_digit self }
    {
        match self {
            Digit::Known(digit) => Some(digit),
            Digit::Any => None,
        }
    }

    /// The digit that both know.
    #[inline]
    pub fn join(self, other: Digit) -> Digit
        ensures { known_digit result ≡ common same_number (known_digit self) (known_digit other) }
    {
        match (self, other) {
            (Digit::Known(first), Digit::Known(second)) if first == second => self,
            _ => Digit::Any,
        }
    }

    /// Whether the upper one says no more: it is unknown, or the same digit.
    #[inline]
    pub fn below(self, upper: Digit) -> bool
        ensures { result ≡ is_below same_number (known_digit self) (known_digit upper) }
    {
        match upper {
            Digit::Any => true,
            Digit::Known(_) => self == upper,
        }
    }
}

impl From<Option<u8>> for Digit {
    ghost from_gives = { λ digit part. known_digit part ≡ digit };

    #[inline]
    fn from(digit: Option<u8>) -> Digit {
        match digit {
            Some(digit) => Digit::Known(digit),
            None => Digit::Any,
        }
    }
}

impl Bit {
    /// The bit, where it is known.
    #[inline]
    pub fn known(self) -> Option<bool>
        ensures { result ≡ known_bit self }
    {
        match self {
            Bit::Known(bit) => Some(bit),
            Bit::Any => None,
        }
    }

    /// The bit that both know.
    #[inline]
    pub fn join(self, other: Bit) -> Bit
        ensures { known_bit result ≡ common same_bool (known_bit self) (known_bit other) }
    {
        match (self, other) {
            (Bit::Known(first), Bit::Known(second)) if first == second => self,
            _ => Bit::Any,
        }
    }

    /// Whether the upper one says no more: it is unknown, or the same bit.
    #[inline]
    pub fn below(self, upper: Bit) -> bool
        ensures { result ≡ is_below same_bool (known_bit self) (known_bit upper) }
    {
        match upper {
            Bit::Any => true,
            Bit::Known(_) => self == upper,
        }
    }
}

impl From<Option<bool>> for Bit {
    ghost from_gives = { λ bit part. known_bit part ≡ bit };

    #[inline]
    fn from(bit: Option<bool>) -> Bit {
        match bit {
            Some(bit) => Bit::Known(bit),
            None => Bit::Any,
        }
    }
}

impl Word {
    /// The address, where it is known.
    #[inline]
    pub fn known(self) -> Option<u16>
        ensures { result ≡ known_word self }
    {
        match self {
            Word::Known(at) => Some(at),
            Word::Any => None,
        }
    }

    /// The address that both know.
    #[inline]
    pub fn join(self, other: Word) -> Word
        ensures { known_word result ≡ common same_number (known_word self) (known_word other) }
    {
        match (self, other) {
            (Word::Known(first), Word::Known(second)) if first == second => self,
            _ => Word::Any,
        }
    }

    /// Whether the upper one says no more: it is unknown, or the same address.
    #[inline]
    pub fn below(self, upper: Word) -> bool
        ensures { result ≡ is_below same_number (known_word self) (known_word upper) }
    {
        match upper {
            Word::Any => true,
            Word::Known(_) => self == upper,
        }
    }
}

impl From<Option<u16>> for Word {
    ghost from_gives = { λ at part. known_word part ≡ at };

    #[inline]
    fn from(at: Option<u16>) -> Word {
        match at {
            Some(at) => Word::Known(at),
            None => Word::Any,
        }
    }
}
