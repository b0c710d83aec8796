// What a chip is fitted as.
use super::{Bytes, PageList, SMI_FIRST_PORT};
use f8_spec::ChipKind;

/// What a chip is fitted as (Mostek 3851, 3853 and 3861 data sheets; the pages of a 3853 are this project's own). A 3851 has 1,024 bytes
/// from `base` on, which is on a boundary of 1,024. The pages of a 3853 ascend, and `rom` has 256 bytes for each ROM page in order. The
/// four ports of a 3851 and of a 3861 begin at `ports`, 4 to 252 in steps of 4. Contracts say so by `IsSpec`.
#[derive(Debug, Drop)]
pub enum ChipSpec {
    /// A chip of this kind that holds no address and has no port.
    Blank(ChipKind),

    /// A 3851.
    Psu {
        /// The first address of its ROM, on a boundary of 1,024.
        base: u16,

        /// Its 1,024 bytes.
        rom: Bytes,

        /// The first of its four ports: two data ports, control, timer.
        ports: u8,

        /// The interrupt vector. In the one that the chip gives, bit 7 of the low byte is clear for the timer and set for a pulse.
        vector: u16,

        /// The chip can ask for an interrupt.
        wired: bool,
    },

    /// A 3853, whose ports are 0C to 0F.
    Smi {
        /// Its pages of 256 bytes, by ascending numbers.
        pages: PageList,

        /// 256 bytes for each ROM page, in the order of the pages.
        rom: Bytes,

        /// The chip can ask for an interrupt.
        wired: bool,
    },

    /// A 3861.
    Pio {
        /// The first of its four ports: two data ports, control, timer.
        ports: u8,

        /// The interrupt vector. In the one that the chip gives, bit 7 of the low byte is clear for the timer and set for a pulse.
        vector: u16,

        /// The chip can ask for an interrupt.
        wired: bool,
    },
}

impl ChipSpec {
    ghost use Rattle.std.specs.Prelude.{◌≡◌, None};
    ghost use Rattle.chip_face.specs.Fitting.{fitted, kind_of};

    /// The kind of chip that it is for.
    pub fn kind(&self) -> ChipKind
        ensures { result ≡ kind_of self.now }
    {
        match self {
            ChipSpec::Blank(kind) => *kind,
            ChipSpec::Psu { .. } => ChipKind::Psu,
            ChipSpec::Smi { .. } => ChipKind::Smi,
            ChipSpec::Pio { .. } => ChipKind::Pio,
        }
    }

    /// The first of the four ports that the chip has, and none of a blank one.
    pub fn first_port(&self) -> Option<u8>
        ensures { result ≡ (fitted None self.now).ports }
    {
        match self {
            ChipSpec::Blank(_) => None,
            ChipSpec::Psu { ports, .. } | ChipSpec::Pio { ports, .. } => Some(*ports),
            ChipSpec::Smi { .. } => Some(SMI_FIRST_PORT),
        }
    }

    /// The chip can ask for an interrupt.
    pub fn is_wired(&self) -> bool
        ensures { result ≡ (fitted None self.now).wired }
    {
        match self {
            ChipSpec::Blank(_) => false,
            ChipSpec::Psu { wired, .. }
            | ChipSpec::Smi { wired, .. }
            | ChipSpec::Pio { wired, .. } => *wired,
        }
    }
}
