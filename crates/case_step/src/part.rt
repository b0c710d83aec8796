// The parts of the F8 that an instruction reads or writes.

/// A part of the F8 of which an entry gives the values.
#[derive(Clone, Copy, Debug, Default, PartialEq, Eq)]
pub enum Part {
    /// The accumulator.
    #[default]
    Accumulator,

    /// ISAR.
    Isar,

    /// The sign flag.
    Sign,

    /// The carry flag.
    Carry,

    /// The zero flag.
    Zero,

    /// The overflow flag.
    Overflow,

    /// The interrupt control bit.
    Icb,

    /// The register of the scratchpad with this number, 0 to 63.
    Register(u8),

    /// The register of the scratchpad that ISAR points to.
    Pointed,

    /// The data counter D0.
    DataCounter,
}
