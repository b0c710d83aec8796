// Runs of pages of a 3853.
ghost use Rattle.std.specs.Prelude.{◌≡◌, ◌≤◌, IfOk, length};
ghost use Rattle.std.specs.List.{list_all};
ghost use Rattle.toml.specs.View.{table_view};
ghost use Rattle.cartridge.specs.Pages.{lies_within as within, lies_before as before, lie_apart as apart};
ghost use Rattle.cartridge.specs.Pages.{run_apart as placed_after, run_at as run_told, has_page as includes};
ghost use Rattle.cartridge.specs.Pages.{page_at as found_at, pages_of as all_pages};

use super::keys::Key;
use super::refusal::{CartCause, KeyFault};
use super::values::number_at;
use chip_face::{Page, PageList, PageSort};
use std::alloc::{AllocError, Global};
use toml::Table;

/// Pages of 256 bytes in a row, all of one sort: the first one's number, and how many.
#[derive(Clone, Copy, Debug, PartialEq, Eq)]
pub struct PageRun {
    pub sort: PageSort,
    pub first: u8,
    pub count: u16,
}

impl PageRun {
    /// No page is past FF.
    fn lies_within(self) -> bool
        ensures { result ≡ within self }
    {
        u32::from(self.first) + u32::from(self.count) <= 256
    }

    /// The run ends before another begins.
    fn lies_before(self, other: PageRun) -> bool
        ensures { result ≡ before self other }
    {
        u32::from(self.first) + u32::from(self.count) <= u32::from(other.first)
    }

    /// Two runs have no page in common.
    fn lies_apart(self, other: PageRun) -> bool
        ensures { result ≡ apart self other }
    {
        self.count == 0 || other.count == 0 || self.lies_before(other) || other.lies_before(self)
    }

    /// The run has no page in common with any of the others.
    fn lies_apart_from_all(self, others: &[PageRun]) -> bool
        ensures { result ≡ list_all (apart self) others.now }
    {
        others.iter().all(|other| self.lies_apart(*other))
    }

    /// The run, where it lies within the pages that there are, and apart from the earlier runs.
    pub fn run_apart(self, earlier: &[PageRun]) -> Result<PageRun, CartCause>
        ensures { result ≡ placed_after earlier.now self }
    {
        if self.lies_within() && self.lies_apart_from_all(earlier) {
            Ok(self)
        } else {
            Err(CartCause::Boundary)
        }
    }

    /// The page with a number is one of the run's.
    fn has_page(self, number: u8) -> bool
        ensures { result ≡ includes number self }
    {
        self.first <= number
            && u32::from(number) + 1 <= u32::from(self.first) + u32::from(self.count)
    }
}

/// The run of pages that a table gives by the keys of the first page and of the number of pages.
pub fn run_at(
    table: &Table,
    sort: PageSort,
    first_key: Key,
    count_key: Key,
    earlier: &[PageRun],
) -> Result<PageRun, KeyFault>
    ensures { result ≡ run_told sort first_key count_key earlier.now (table_view table.now) }
{
    let first = number_at(table, first_key, 255)? as u8;
    let count = number_at(table, count_key, 256)?;
    let run = PageRun { sort, first, count };
    run.run_apart(earlier).map_err(|cause| KeyFault {
        key: count_key,
        cause,
    })
}

/// The page with a number, where a run has it.
fn page_at(runs: &[PageRun], number: u8) -> Option<Page>
    ensures { result ≡ found_at runs.now number }
{
    let run = runs.iter().find(|run| run.has_page(number))?;
    Some(Page {
        number,
        sort: run.sort,
    })
}

/// The pages of some runs, by ascending numbers.
#[tactic(auto, using(crate::proofs::PageLists::one_more, crate::proofs::PageLists::none_more))]
pub fn pages_of(alloc: Global, runs: &[PageRun]) -> Result<PageList, AllocError>
    ensures pages { IfOk result (λ pages. pages ≡ all_pages runs.now) }
    ensures few { IfOk result (λ pages. length pages ≤ 256) }
{
    let mut pages = Vec::new(alloc);
    for number in 0_u16..256 {
        if let Some(page) = page_at(runs, number as u8) {
            pages.push(page)?;
        }
    }
    Ok(PageList::from_vec(pages))
}
