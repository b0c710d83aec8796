// The status word.
/// The status word W of the 3850: the flags of the last result that set them, and the interrupt control bit (Fairchild F8 User's
/// Guide, status register).
#[derive(Clone, Copy, Debug, Default, PartialEq, Eq)]
pub struct Flags {
    /// Bit 7 of the result is 0.
    pub sign: bool,
    /// The carry out of bit 7.
    pub carry: bool,
    /// The result is 0.
    pub zero: bool,
    /// The carry out of bit 6 and the carry out of bit 7 differ.
    pub overflow: bool,
    /// Interrupts are enabled.
    pub icb: bool,
}

impl Flags {
    ghost use Rattle.std.specs.Prelude.{◌≡◌};
    ghost use Rattle.f8_spec.specs.Flags.{status_byte, status_of};
    ghost use Rattle.f8_words.specs.StatusWord.{status_of_flags};

    /// The status word as a byte: bit 0 is sign, 1 carry, 2 zero, 3 overflow, 4 the interrupt control bit, and the bits above
    /// are 0.
    pub fn to_byte(self) -> u8
        ensures byte { result ≡ status_byte (status_of_flags self) }
        ensures back { status_of result ≡ status_of_flags self }
    {
        u8::from(self.sign)
            + 2 * u8::from(self.carry)
            + 4 * u8::from(self.zero)
            + 8 * u8::from(self.overflow)
            + 16 * u8::from(self.icb)
    }

    /// The status word that the low five bits of `b` say.
    pub fn from_byte(b: u8) -> Flags
        ensures { status_of_flags result ≡ status_of b }
    {
        Flags {
            sign: b % 2 == 1,
            carry: b / 2 % 2 == 1,
            zero: b / 4 % 2 == 1,
            overflow: b / 8 % 2 == 1,
            icb: b / 16 % 2 == 1,
        }
    }
}
