// What the chips of one kind hold.
use super::chips::{some_has_pages, some_holds};
use chip_face::{ChipKind, ChipSpec};

/// The pages of the chips of one kind.
#[derive(Clone, Copy)]
pub struct KindPages {
    /// Whether one of them holds each page.
    pub held: [bool; 256],

    /// Whether one of them has a page.
    pub any: bool,
}

impl KindPages {
    ghost use Rattle.std.specs.Prelude.{All};
    ghost use Rattle.chip_face.specs.Fitting.{IsSpec};
    ghost use Rattle.memory_map.specs.KindTables.{AreKindPages};

    /// The pages of the chips of a kind.
    pub fn of(chips: &[ChipSpec], kind: ChipKind) -> KindPages
        requires { All IsSpec chips.now }
        ensures { AreKindPages kind chips.now result }
    {
        let mut held = [false; 256];
        for number in 0..256 {
            held[number] = some_holds(chips, kind, number as u8);
        }
        KindPages {
            held,
            any: some_has_pages(chips, kind),
        }
    }
}
