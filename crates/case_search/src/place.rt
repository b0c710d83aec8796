// The parts of an entry, by which the search tells what became of them.
use case_step::Entry;
use value_sets::only;

/// A part of an entry.
#[derive(Clone, Copy, Debug, Default, PartialEq, Eq, PartialOrd, Ord)]
pub enum Place {
    /// The accumulator.
    #[default]
    Accumulator,

    /// ISAR.
    Isar,

    /// The bit of the status word with this number, 0 to 4.
    Status(u8),

    /// The data counter D0.
    D0,

    /// The second data counter, D1.
    D1,

    /// The DC0 of every 3851.
    C,

    /// That the DC0 of every 3853 is D0.
    S0,

    /// That the DC1 of every 3853 is D1.
    S1,

    /// That the DC0 of every 3851 is D0.
    P0,

    /// That the DC0 of every 3851 is D1.
    P1,

    /// The register of the scratchpad with this number, 0 to 63.
    Register(u8),
}

impl Place {
    /// Entries may be kept apart by the values of this part; by the flags they are so anyway, where these count.
    pub fn may_be_apart(self) -> bool {
        match self {
            Place::Accumulator | Place::Isar | Place::Register(_) => true,
            Place::D0 | Place::D1 | Place::C => true,
            Place::Status(_) | Place::S0 | Place::S1 | Place::P0 | Place::P1 => false,
        }
    }

    /// The value of a part by which entries may be kept apart, where it has one alone.
    pub fn single_in(self, entry: &Entry) -> Option<u16> {
        match self {
            Place::Accumulator => entry.a.single().map(u16::from),
            Place::Isar => only(entry.isar.as_slice()).map(u16::from),
            Place::D0 => entry.d0.single(),
            Place::D1 => entry.d1.single(),
            Place::C => entry.c.single(),
            Place::Register(number) => {
                let values = &entry.regs[..];
                values.get(usize::from(number))?.single().map(u16::from)
            },
            Place::Status(_) | Place::S0 | Place::S1 | Place::P0 | Place::P1 => None,
        }
    }
}
