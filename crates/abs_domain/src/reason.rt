// Why a state isn't safe at its point.
ghost use Rattle.std.specs.Prelude.{◌≡◌};
ghost use Rattle.abs_domain.specs.Reasons.{reason_number};

/// Why a state isn't safe at its point (this project's own). Of several the first counts, in this order; the first two are tried at the
/// opcode, and again at each byte behind it before all that come after the third.
#[derive(Clone, Copy, Debug, PartialEq, Eq)]
pub enum Reason {
    /// The address of the opcode or of an operand byte isn't held by exactly one chip.
    CodeNotHeldOnce,

    /// It is in RAM.
    CodeInRam,

    /// The opcode is reserved.
    ReservedOpcode,

    /// `PK` or `LR P0,Q`, and a byte of K or Q isn't known.
    UnknownJump,

    /// `LR P,K`, and a byte of K isn't known.
    UnknownReturn,

    /// `POP` or `LR K,P`, and the copies of the stack register may differ.
    UnsetReturn,

    /// The bus goes by D0, and a chip that may take part may have its DC0 elsewhere.
    DataCountersApart,

    /// `LR K,P`, and the address in the stack register isn't held by exactly one chip.
    ReturnNotHeldOnce,

    /// A read of a port that isn't a data port of exactly one chip, or a write to a port of several.
    BadPort,

    /// An interrupt may be taken at the end, and its vector isn't known, since ports write it.
    UnknownVector,

    /// The bus goes by D0, which several chips may hold.
    SharedDataAddress,

    /// A tracked register is written with an unknown byte, or may be written by an ISAR with an unknown digit.
    TrackedRegisterBlurred,
}

impl Reason {
    /// The number of the reason, 1 to 12, by which it is told.
    pub fn number(self) -> u8
        ensures { result ≡ reason_number self }
    {
        match self {
            Reason::CodeNotHeldOnce => 1,
            Reason::CodeInRam => 2,
            Reason::ReservedOpcode => 3,
            Reason::UnknownJump => 4,
            Reason::UnknownReturn => 5,
            Reason::UnsetReturn => 6,
            Reason::DataCountersApart => 7,
            Reason::ReturnNotHeldOnce => 8,
            Reason::BadPort => 9,
            Reason::UnknownVector => 10,
            Reason::SharedDataAddress => 11,
            Reason::TrackedRegisterBlurred => 12,
        }
    }
}
