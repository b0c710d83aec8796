// Which chips hold a page, and its bytes.
use super::entry::Entry;
use super::pages::{HeldPage, chip_page};
use chip_face::{ChipSpec, MOST_CHIPS, PAGE_SIZE, PageSort};
use std::alloc::AllocError;

/// The chips that hold a page of 256 addresses: none, the one at a place among the chips, or two and more.
#[derive(Clone, Copy)]
pub enum Holder<'a> {
    Nobody,
    One { owner: u8, page: HeldPage<'a> },
    Several,
}

impl<'a> Holder<'a> {
    ghost use Rattle.std.specs.Prelude.{◌≡◌, ◌≤◌, ◌++◌, OnOk, length, [], ◌∷◌, All};
    ghost use Rattle.chip_face.specs.Fitting.{IsSpec};
    ghost use Rattle.memory_map.specs.Holders.{seen, page_view, followed_by, holder_of};
    ghost use Rattle.memory_map.specs.MapEntries.{entry_of, page_bytes};

    /// The holders of the page of a number.
    pub fn of(chips: &'a [ChipSpec], number: u8) -> Holder<'a>
        requires few { length chips.now ≤ MOST_CHIPS }
        requires specified { All IsSpec chips.now }
        ensures { seen result ≡ holder_of number chips.now }
    {
        let mut holder = Holder::Nobody;
        for (owner, chip) in chips.iter().enumerate() {
            if let Some(page) = chip_page(chip, number) {
                holder = holder.and_one(owner as u8, page);
            }
        }
        holder
    }

    /// The holders with one more.
    fn and_one(self, owner: u8, page: HeldPage<'a>) -> Holder<'a>
        ensures { seen result ≡ followed_by (seen self.entry) ((owner, page_view page.entry) ∷ []) }
    {
        match self {
            Holder::Nobody => Holder::One { owner, page },
            Holder::One { .. } | Holder::Several => Holder::Several,
        }
    }

    /// What the page is to the chips.
    pub fn entry(self) -> Entry
        ensures { result ≡ entry_of (seen self.entry) }
    {
        match self {
            Holder::Nobody => Entry::Nothing,
            Holder::One { owner, page } => Entry::Held {
                sort: page.sort,
                owner,
            },
            Holder::Several => Entry::Shared,
        }
    }

    /// Adds the bytes that stay in the page, and 255 where none does.
    pub fn add_bytes(self, bytes: &mut Vec<u8>) -> Result<(), AllocError>
        requires { length bytes.old.items ≤ 65536 }
        ensures { OnOk result (bytes.new.items ≡ bytes.old.items ++ page_bytes (seen self.entry)) }
    {
        match self {
            Holder::One { page, .. } if page.sort == PageSort::Rom => bytes.extend_from_slice(
                page.rom,
            ),
            _ => bytes.resize(bytes.len() + PAGE_SIZE, 255),
        }
    }
}
