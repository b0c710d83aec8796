// The cartridge of a description.
use super::split::Split;
use chip_face::{ChipList, Powers};

/// A cartridge: the registers that the checker tracks, the chips in the order of the description, and in the same order what is said of
/// the power-on of each.
#[derive(Debug, Drop)]
pub struct Cart {
    pub split: Split,
    pub chips: ChipList,
    pub powers: Powers,
}
