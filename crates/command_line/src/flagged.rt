// The words behind `check` and `prove`, each of which has a flag, by a simple command of clap's.
ghost use Rattle.std.specs.Prelude.{◌≡◌, ◌⊎◌, IfErr, IfOk, IsTrue, None, drop, map, option_map, string_bytes};
ghost use Rattle.clap.specs.Words.{kind_of};
ghost use Rattle.command_line.specs.CommandLine.{dashed, flagged_of};
ghost use Rattle.command_line.specs.Parsers.{is_flag_name};
ghost use Rattle.command_line.specs.Seen.{seen_flagged};

use super::parsers::{bare_command, flag, wanted_word};
use clap::Error;
use clap::error::ErrorKind;
use std::alloc::Global;

/// The file behind the first word, and whether the flag of this name stands beside it; and `None` where there isn't just one plain word,
/// the flag stands twice, or a word is neither.
pub fn file_and_flag<'a>(
    alloc: Global,
    words: &'a [String],
    name: &'a str,
) -> Result<Option<(&'a str, bool)>, Error>
    requires { IsTrue (is_flag_name name.now) }
    ensures asked { IfOk result (λ asked.
        option_map seen_flagged asked
        ≡ flagged_of (dashed name.now) (drop 1 (map string_bytes words.now))) }
    ensures refused { IfErr result (λ error.
        (kind_of error ≡ ErrorKind.OutOfMemory)
        ⊎ (flagged_of (dashed name.now) (drop 1 (map string_bytes words.now)) ≡ None)) }
{
    let Some(first) = words.first() else {
        return Ok(None);
    };
    let command = bare_command(alloc, first.as_str())
        .arg(flag(alloc, name))?
        .arg(wanted_word(alloc, "cart"))?;
    let matches = command.try_get_matches_from(words)?;
    let flagged = matches.get_flag(name);
    let cart = matches.get_str("cart");
    Ok(cart.map(|cart| (cart, flagged)))
}
