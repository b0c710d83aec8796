// The parts of the commands of clap's that read the words.
ghost use Rattle.std.specs.Prelude.{◌≡◌, false};
ghost use Rattle.clap.specs.Words.{app_of, rule_of};
ghost use Rattle.command_line.specs.Parsers.{bare_command, flag, wanted_word};

use clap::{Arg, ArgAction, Command};
use std::alloc::Global;

/// A command without help and version.
pub fn bare_command<'a>(alloc: Global, name: &'a str) -> Command<'a>
    ensures { app_of result ≡ bare_command name.entry.now }
{
    Command::new(alloc, name)
        .disable_help_flag(true)
        .disable_version_flag(true)
}

/// A plain word that has to be there, once.
pub fn wanted_word<'a>(alloc: Global, id: &'a str) -> Arg<'a>
    ensures rule { rule_of result ≡ wanted_word id.entry.now }
    ensures local { result.global ≡ false }
{
    Arg::new(alloc, id).required(true).action(ArgAction::Set)
}

/// A flag by its name, once or not at all, with no value.
pub fn flag<'a>(alloc: Global, name: &'a str) -> Arg<'a>
    ensures rule { rule_of result ≡ flag name.entry.now }
    ensures local { result.global ≡ false }
{
    Arg::new(alloc, name).long(name).action(ArgAction::SetTrue)
}
