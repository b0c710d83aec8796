// What all the words ask for.
ghost use Rattle.std.specs.Prelude.{◌≡◌, ◌⊎◌, IsTrue, IfErr, IfOk, OnErr, None, drop, map, option_map, string_bytes};
ghost use Rattle.clap.specs.Words.{kind_of};
ghost use Rattle.command_line.specs.CommandLine.{Audit, command_of, has_command, three_of};
ghost use Rattle.command_line.specs.Seen.{seen_command};

use super::asked::Command;
use super::files::{one_word, three_files, two_files};
use super::flagged::file_and_flag;
use super::play::play;
use super::seed::seed_of;
use clap::Error;
use clap::error::ErrorKind;
use f8_spec::Memory;
use std::alloc::Global;

/// The audit that the three files behind the first word ask for, and `None` where there aren't just three plain words.
fn audit<'a>(alloc: Global, words: &'a [String]) -> Result<Option<Command<'a>>, Error>
    ensures audit { IfOk result (λ audit.
        option_map seen_command audit ≡ option_map (λ files. Audit files.0 files.1 files.2)
        (three_of (drop 1 (map string_bytes words.now)))) }
    ensures refused { IfErr result (λ error.
        (kind_of error ≡ ErrorKind.OutOfMemory)
        ⊎ (three_of (drop 1 (map string_bytes words.now)) ≡ None)) }
{
    let files = three_files(alloc, words)?;
    Ok(files.map(|(cart, script, trace)| Command::Audit {
        cart,
        script,
        trace,
    }))
}

/// What the words ask for, and `None` or an error of clap's where they are none of the program's.
fn asked_for<'a>(alloc: Global, words: &'a [String]) -> Result<Option<Command<'a>>, Error>
    ensures asked { IfOk result (λ asked.
        option_map seen_command asked ≡ command_of (map string_bytes words.now)) }
    ensures refused { IfErr result (λ error.
        (kind_of error ≡ ErrorKind.OutOfMemory)
        ⊎ (command_of (map string_bytes words.now) ≡ None)) }
    ensures memory { OnErr result (IsTrue (has_command (map string_bytes words.now))) }
{
    let Some(name) = words.first() else {
        return Ok(None);
    };
    match name.as_str() {
        "play" => play(alloc, words),
        "ref" => Ok(two_files(alloc, words)?.map(|(cart, script)| Command::Ref { cart, script })),
        "debug" => {
            let files = two_files(alloc, words)?;
            Ok(files.map(|(cart, commands)| Command::Debug { cart, commands }))
        }
        "audit" => audit(alloc, words),
        "check" => {
            let asked = file_and_flag(alloc, words, "cert")?;
            Ok(asked.map(|(cart, certified)| Command::Check { cart, certified }))
        }
        "verify" => Ok(two_files(alloc, words)?.map(|(cart, cert)| Command::Verify { cart, cert })),
        "confirm" => {
            let files = two_files(alloc, words)?;
            Ok(files.map(|(cart, cases)| Command::Confirm { cart, cases }))
        }
        "prove" => {
            let asked = file_and_flag(alloc, words, "cases")?;
            Ok(asked.map(|(cart, listed)| Command::Prove { cart, listed }))
        }
        "migrate" => Ok(one_word(alloc, words)?.map(|cart| Command::Migrate { cart })),
        "asm" => Ok(one_word(alloc, words)?.map(|file| Command::Asm { file })),
        "link" => Ok(one_word(alloc, words)?.map(|plan| Command::Link { plan })),
        "dis" => Ok(one_word(alloc, words)?.map(|file| Command::Dis { file })),
        "gen" => {
            let seed = one_word(alloc, words)?.and_then(seed_of);
            Ok(seed.map(|seed| Command::Gen { seed }))
        }
        _ => Ok(None),
    }
}

/// What the words ask for, and `None` where they are none of the program's. `Memory`: memory is missing. It says nothing of the words but
/// that the first is that of a command: without one no memory is taken.
pub fn read_words<'a>(alloc: Global, words: &'a [String]) -> Result<Option<Command<'a>>, Memory>
    ensures asked { IfOk result (λ asked.
        option_map seen_command asked ≡ command_of (map string_bytes words.now)) }
    ensures memory { OnErr result (IsTrue (has_command (map string_bytes words.now))) }
{
    match asked_for(alloc, words) {
        Ok(asked) => Ok(asked),
        Err(error) if error.kind() == ErrorKind::OutOfMemory => Err(Memory),
        Err(_) => Ok(None),
    }
}
