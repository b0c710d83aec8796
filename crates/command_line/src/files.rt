// The words behind a command that takes plain words alone, by a simple command of clap's.
ghost use Rattle.std.specs.Prelude.{◌≡◌, ◌⊎◌, IfErr, IfOk, None, drop, map, option_map, string_bytes};
ghost use Rattle.clap.specs.Words.{kind_of};
ghost use Rattle.command_line.specs.CommandLine.{one_of, two_of, three_of};
ghost use Rattle.command_line.specs.Seen.{seen_files, seen_three_files};

use super::parsers::{bare_command, wanted_word};
use clap::Error;
use clap::error::ErrorKind;
use std::alloc::Global;

/// The one word behind the first, which is the command's, and `None` where there isn't one alone, or it isn't plain.
pub fn one_word<'a>(alloc: Global, words: &'a [String]) -> Result<Option<&'a str>, Error>
    ensures word { IfOk result (λ word.
        option_map (λ w. w.now) word ≡ one_of (drop 1 (map string_bytes words.now))) }
    ensures refused { IfErr result (λ error.
        (kind_of error ≡ ErrorKind.OutOfMemory)
        ⊎ (one_of (drop 1 (map string_bytes words.now)) ≡ None)) }
{
    let Some(name) = words.first() else {
        return Ok(None);
    };
    let command = bare_command(alloc, name.as_str()).arg(wanted_word(alloc, "word"))?;
    let matches = command.try_get_matches_from(words)?;
    Ok(matches.get_str("word"))
}

/// The two words behind the first, which is the command's, and `None` where there aren't just two, or one isn't plain.
pub fn two_files<'a>(
    alloc: Global,
    words: &'a [String],
) -> Result<Option<(&'a str, &'a str)>, Error>
    ensures files { IfOk result (λ files.
        option_map seen_files files ≡ two_of (drop 1 (map string_bytes words.now))) }
    ensures refused { IfErr result (λ error.
        (kind_of error ≡ ErrorKind.OutOfMemory)
        ⊎ (two_of (drop 1 (map string_bytes words.now)) ≡ None)) }
{
    let Some(name) = words.first() else {
        return Ok(None);
    };
    let command = bare_command(alloc, name.as_str())
        .arg(wanted_word(alloc, "cart"))?
        .arg(wanted_word(alloc, "script"))?;
    let matches = command.try_get_matches_from(words)?;
    Ok(matches.get_str("cart").zip(matches.get_str("script")))
}

/// The three words behind the first, which is the command's, and `None` where there aren't just three, or one isn't plain.
pub fn three_files<'a>(
    alloc: Global,
    words: &'a [String],
) -> Result<Option<(&'a str, &'a str, &'a str)>, Error>
    ensures files { IfOk result (λ files.
        option_map seen_three_files files ≡ three_of (drop 1 (map string_bytes words.now))) }
    ensures refused { IfErr result (λ error.
        (kind_of error ≡ ErrorKind.OutOfMemory)
        ⊎ (three_of (drop 1 (map string_bytes words.now)) ≡ None)) }
{
    let Some(name) = words.first() else {
        return Ok(None);
    };
    let command = bare_command(alloc, name.as_str())
        .arg(wanted_word(alloc, "cart"))?
        .arg(wanted_word(alloc, "script"))?
        .arg(wanted_word(alloc, "trace"))?;
    let matches = command.try_get_matches_from(words)?;
    let pair = matches.get_str("cart").zip(matches.get_str("script"));
    let files = pair.zip(matches.get_str("trace"));
    Ok(files.map(|((cart, script), trace)| (cart, script, trace)))
}
