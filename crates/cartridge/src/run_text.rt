// The texts of runs of pages.
ghost use Rattle.std.specs.Prelude.{◌≡◌, ◌+◌, ◌≤◌, ◌<◌, All, IfOk, string_bytes};
ghost use Rattle.toml.specs.View.{items_view};
ghost use Rattle.cartridge.specs.Migrated.{page_digits as digits_told, range_text as range_told, run_text as text_told};
ghost use Rattle.cartridge.specs.Migrated.{run_texts as texts_told};
ghost use Rattle.cartridge.specs.PageTexts.{sort_word as word_told};

use super::page_run::PageRun;
use chip_face::PageSort;
use std::alloc::{AllocError, Global};
use toml::Value;

/// The word for a sort of pages.
fn sort_word(sort: PageSort) -> &'static str
    ensures { result.now ≡ word_told sort }
{
    match sort {
        PageSort::Rom => "rom",
        PageSort::Ram => "ram",
        PageSort::Void => "void",
    }
}

/// Two capital hexadecimal digits.
fn page_digits(alloc: Global, page: u8) -> Result<String, AllocError>
    ensures { IfOk result (λ text. string_bytes text ≡ digits_told page) }
{
    hex::encode_upper(alloc, [page])
}

/// One page, or the first and the last one.
fn range_text(alloc: Global, first: u8, last: u8) -> Result<String, AllocError>
    ensures { IfOk result (λ text. string_bytes text ≡ range_told first last) }
{
    let mut text = page_digits(alloc, first)?;
    if first != last {
        text.push_str("-")?;
        text.push_str(page_digits(alloc, last)?.as_str())?;
    }
    Ok(text)
}

/// The text of a run that has a page.
fn run_text(alloc: Global, run: PageRun) -> Result<String, AllocError>
    requires some { 1 ≤ run.count }
    requires inside { run.first + run.count ≤ 256 }
    ensures { IfOk result (λ text. string_bytes text ≡ text_told run) }
{
    let last = (u32::from(run.first) + u32::from(run.count) - 1) as u8;
    let mut text = String::from_str(alloc, sort_word(run.sort))?;
    text.push_str(" ")?;
    text.push_str(range_text(alloc, run.first, last)?.as_str())?;
    Ok(text)
}

/// The texts of those runs that have a page.
pub fn run_texts(alloc: Global, runs: &[PageRun]) -> Result<Vec<Value>, AllocError>
    requires { All (λ run. run.first + run.count ≤ 256) runs.now }
    ensures { IfOk result (λ texts. items_view texts.items ≡ texts_told runs.now) }
{
    let mut texts = Vec::with_capacity(alloc, runs.len())?;
    for run in runs {
        if run.count > 0 {
            texts.push(Value::String(run_text(alloc, *run)?))?;
        }
    }
    Ok(texts)
}
