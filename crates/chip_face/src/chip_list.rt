// The chips of a description.
ghost use Rattle.std.specs.Prelude.{◌≡◌, ◌==◌, length};
ghost use Rattle.chip_face.specs.Fitting.{IsChipList};

use super::ChipSpec;
use std::marker::Model;

/// The chips of a description, in its order: at most 16, none of them blank, and each as a specification has to be. Contracts
/// see the list of their specifications.
#[derive(Debug, Drop)]
pub struct ChipList {
    items: Vec<ChipSpec>,
}

impl Model for ChipList {
    ghost use Rattle.std.specs.Prelude.{List};
    ghost use Rattle.chip_face.specs.Fitting.{IsChipList};
    ghost use Rattle.chip_face.specs.declared.specification.ChipSpec.{ChipSpec};

    ghost Value = { List ChipSpec };

    ghost view = { λ c. c.items.items };

    ghost invariant = { λ c. IsChipList c.items.items };
}

impl ChipList {
    /// The chips of a vector, which is kept as it is.
    pub fn from_vec(items: Vec<ChipSpec>) -> ChipList
        requires { IsChipList items.items }
        ensures { result ≡ items.items }
    {
        ChipList { items }
    }

    /// All of the chips.
    pub fn as_slice(&self) -> &[ChipSpec]
        ensures chips { result.now ≡ self.now }
        ensures limits { IsChipList self.now }
    {
        self.items.as_slice()
    }

    /// How many chips there are.
    pub fn len(&self) -> usize
        ensures { result ≡ length self.now }
    {
        self.items.len()
    }

    /// There is no chip.
    pub fn is_empty(&self) -> bool
        ensures { result ≡ (length self.now == 0) }
    {
        self.items.is_empty()
    }
}
