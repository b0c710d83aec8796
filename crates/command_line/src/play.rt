// The words behind `play`, which has a flag, by a simple command of clap's.
ghost use Rattle.std.specs.Prelude.{◌≡◌, ◌⊎◌, IfErr, IfOk, None, drop, map, option_map, string_bytes};
ghost use Rattle.clap.specs.Words.{kind_of};
ghost use Rattle.command_line.specs.CommandLine.{play_of, run_of};
ghost use Rattle.command_line.specs.Seen.{seen_command};

use super::asked::Command;
use super::parsers::{bare_command, flag, wanted_word};
use clap::Error;
use clap::error::ErrorKind;
use std::alloc::Global;

/// The run that the two files and the flag behind the first word ask for, and `None` where there aren't just two plain words, the flag
/// stands twice, or a word is neither.
pub fn play<'a>(alloc: Global, words: &'a [String]) -> Result<Option<Command<'a>>, Error>
    ensures run { IfOk result (λ run.
        option_map seen_command run ≡ option_map play_of
        (run_of (drop 1 (map string_bytes words.now)))) }
    ensures refused { IfErr result (λ error.
        (kind_of error ≡ ErrorKind.OutOfMemory)
        ⊎ (run_of (drop 1 (map string_bytes words.now)) ≡ None)) }
{
    let Some(name) = words.first() else {
        return Ok(None);
    };
    let command = bare_command(alloc, name.as_str())
        .arg(flag(alloc, "trace"))?
        .arg(wanted_word(alloc, "cart"))?
        .arg(wanted_word(alloc, "script"))?;
    let matches = command.try_get_matches_from(words)?;
    let traced = matches.get_flag("trace");
    let files = matches.get_str("cart").zip(matches.get_str("script"));
    Ok(files.map(|(cart, script)| Command::Play {
        cart,
        script,
        traced,
    }))
}
