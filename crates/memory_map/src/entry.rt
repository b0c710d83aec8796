// What the map keeps of a page.
ghost use Rattle.std.specs.Prelude.{◌≡◌};
ghost use Rattle.std.specs.List.{list_all, list_any};
ghost use Rattle.memory_map.specs.MapEntries.{is_held, is_held_once, is_shared};

use chip_face::PageSort;

/// What a page of 256 addresses is to the chips.
#[derive(Clone, Copy)]
pub enum Entry {
    /// No chip holds it.
    Nothing,
    /// The chip at this place among the chips holds it.
    Held { sort: PageSort, owner: u8 },
    /// Two or more chips hold it.
    Shared,
}

/// Whether each page has one holder or more.
pub fn all_held(pages: &[Entry]) -> bool
    ensures { result ≡ list_all is_held pages.now }
{
    pages.iter().all(|page| !matches!(page, Entry::Nothing))
}

/// Whether each page has one holder alone.
pub fn all_held_once(pages: &[Entry]) -> bool
    ensures { result ≡ list_all is_held_once pages.now }
{
    pages.iter().all(|page| matches!(page, Entry::Held { .. }))
}

/// Whether some page has several holders.
pub fn any_shared(pages: &[Entry]) -> bool
    ensures { result ≡ list_any is_shared pages.now }
{
    pages.iter().any(|page| matches!(page, Entry::Shared))
}
