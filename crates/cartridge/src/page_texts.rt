// The texts of runs of pages.
ghost use Rattle.std.specs.Prelude.{◌≡◌, IfOk, [], map, option_map, MatchResult, Ok, Err};
ghost use Rattle.toml.specs.Data.{as_str};
ghost use Rattle.toml.specs.View.{view, items_view, table_view};
ghost use Rattle.cartridge.specs.Faults.{at_key};
ghost use Rattle.cartridge.specs.declared.keys.Key.TheVariants.{Pages};
ghost use Rattle.text_lines.specs.ReadErrors.{SaysSeen};
ghost use Rattle.cartridge.specs.Plans.{str_seen};
ghost use Rattle.cartridge.specs.Values.{each, usually};
ghost use Rattle.cartridge.specs.PageTexts.{sort_named as sort_told, page_number as number_told};
ghost use Rattle.cartridge.specs.PageTexts.{run_between as between_told, range_of as range_told, parted, hyphen};
ghost use Rattle.cartridge.specs.PageTexts.{run_of_text as run_told, each_run, runs_apart as apart_told};
ghost use Rattle.cartridge.specs.PageTexts.{runs_in as runs_told};

use super::keys::Key;
use super::page_run::PageRun;
use super::refusal::{CartCause, TableStop, fault_at};
use super::values::value_at;
use chip_face::PageSort;
use std::alloc::{AllocError, Global};
use toml::{Table, Value};

/// A list has at most so many texts, as many as there are pages.
const MOST_TEXTS: usize = 256;

/// The sort of page with a name.
fn sort_named(word: &str) -> Option<PageSort>
    ensures { result ≡ sort_told word.now }
{
    match word {
        "rom" => Some(PageSort::Rom),
        "ram" => Some(PageSort::Ram),
        "void" => Some(PageSort::Void),
        _ => None,
    }
}

/// A page by its two digits.
fn page_number(digits: &str) -> Option<u8>
    ensures { result ≡ number_told digits.now }
{
    let mut number = [0_u8; 1];
    hex::decode_to_slice(digits, &mut number).ok()?;
    Some(number[0])
}

/// From one page to another, which isn't below it.
fn run_between(sort: PageSort, first: u8, last: u8) -> Option<PageRun>
    ensures { result ≡ between_told sort first last }
{
    if first <= last {
        let count = u16::from(last - first) + 1;
        Some(PageRun { sort, first, count })
    } else {
        None
    }
}

/// One page, or the pages between two.
fn range_of(sort: PageSort, pages: &str) -> Option<PageRun>
    ensures { result ≡ range_told sort pages.now (parted hyphen pages.now) }
{
    match pages.split_once('-') {
        Some((first, last)) => run_between(sort, page_number(first)?, page_number(last)?),
        None => {
            let number = page_number(pages)?;
            run_between(sort, number, number)
        }
    }
}

/// The run that a text gives.
#[tactic(auto, unfolding(crate::specs::PageTexts::run_of_text))]
fn run_of_text(text: &str) -> Option<PageRun>
    ensures { result ≡ run_told text.now }
{
    let (word, pages) = text.split_once(' ')?;
    range_of(sort_named(word)?, pages)
}

/// The entries as texts, and `None` where one is something else.
#[tactic(auto, using(crate::proofs::TextsRead::texts_none, crate::proofs::TextsRead::texts_more, crate::proofs::TextsRead::texts_bad, crate::proofs::TextsRead::texts_all))]
fn texts_of<'a>(alloc: Global, entries: &'a [Value]) -> Result<Option<Vec<&'a str>>, AllocError>
    ensures { IfOk result (λ texts. option_map (λ ts. map str_seen ts.items) texts
        ≡ each as_str (items_view entries.now)) }
{
    let mut texts = Vec::with_capacity(alloc, entries.len())?;
    for entry in entries {
        let Some(text) = entry.as_str() else {
            return Ok(None);
        };
        texts.push(text)?;
    }
    Ok(Some(texts))
}

/// The run of each text, and `None` where one gives none.
#[tactic(auto, using(crate::proofs::RunsRead::runs_none, crate::proofs::RunsRead::runs_more, crate::proofs::RunsRead::runs_bad, crate::proofs::RunsRead::runs_all))]
fn runs_of_texts(alloc: Global, texts: &[&str]) -> Result<Option<Vec<PageRun>>, AllocError>
    ensures { IfOk result (λ runs. option_map (λ rs. rs.items) runs
        ≡ each_run (map str_seen texts.now)) }
{
    let mut runs = Vec::with_capacity(alloc, texts.len())?;
    for text in texts {
        let Some(run) = run_of_text(text) else {
            return Ok(None);
        };
        runs.push(run)?;
    }
    Ok(Some(runs))
}

/// Judges whether no run has a page of an earlier one.
fn judge_runs(runs: &[PageRun]) -> Result<(), CartCause>
    ensures { MatchResult result (λ _. apart_told [] runs.now ≡ Ok runs.now)
        (λ cause. apart_told [] runs.now ≡ Err cause) }
{
    for index in 0..runs.len() {
        runs[index].run_apart(&runs[..index])?;
    }
    Ok(())
}

/// The runs that the texts of a list give.
fn runs_in(alloc: Global, value: &Value) -> Result<Vec<PageRun>, TableStop>
    ensures { SaysSeen (λ runs. runs.items) result (at_key Pages (runs_told (view value.now))) }
{
    let Some(entries) = value.as_array() else {
        return Err(fault_at(Key::Pages, CartCause::WrongType));
    };
    let Some(texts) = texts_of(alloc, entries.as_slice())? else {
        return Err(fault_at(Key::Pages, CartCause::WrongType));
    };
    if texts.len() > MOST_TEXTS {
        return Err(fault_at(Key::Pages, CartCause::Range));
    }
    let Some(runs) = runs_of_texts(alloc, texts.as_slice())? else {
        return Err(fault_at(Key::Pages, CartCause::Range));
    };
    match judge_runs(runs.as_slice()) {
        Ok(()) => Ok(runs),
        Err(cause) => Err(fault_at(Key::Pages, cause)),
    }
}

/// The runs of pages at the key of pages, and none where it is left out.
pub fn runs_at(alloc: Global, table: &Table) -> Result<Vec<PageRun>, TableStop>
    ensures { SaysSeen (λ runs. runs.items) result
        (usually Pages [] runs_told (table_view table.now)) }
{
    match value_at(table, Key::Pages) {
        Some(value) => runs_in(alloc, value),
        None => Ok(Vec::new(alloc)),
    }
}
