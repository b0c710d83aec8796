// The command of a line.
ghost use Rattle.std.specs.Prelude.{◌≡◌, ◌∷◌, IfOk, IfSome};
ghost use Rattle.line_words.specs.Words.{words};
ghost use Rattle.chip_debug.specs.Limits.{IsCommand};
ghost use Rattle.chip_debug.specs.Commands.{power_of as spelled_power, pulse_of as spelled_pulse};
ghost use Rattle.chip_debug.specs.Commands.{step_of as spelled_step, run_of as spelled_run, bare_break as spelled_bare};
ghost use Rattle.chip_debug.specs.Commands.{shown_of as spelled_shown, keys_of as spelled_keys, break_at as spelled_at};
ghost use Rattle.chip_debug.specs.Commands.{break_romc as spelled_romc, break_chip as spelled_chip};
ghost use Rattle.chip_debug.specs.Commands.{break_of as spelled_break, mem_of as spelled_mem, alone as spelled_alone};
ghost use Rattle.chip_debug.specs.Commands.{back_run as spelled_back_run, back_of as spelled_back};
ghost use Rattle.chip_debug.specs.Commands.{stored_of as spelled_stored, back_with as spelled_back_with};
ghost use Rattle.chip_debug.specs.Commands.{with_one as spelled_one, with_two as spelled_two};
ghost use Rattle.chip_debug.specs.Commands.{command_of as spelled_command, line_of as spelled_line};

use super::answers::DebugCause;
use super::command::Command;
use line_words::{address_of, byte_of, first_word, is_skipped, is_word, number_within, only_word};
use text_lines::all_printable;

/// The most instructions of one command.
const MOST_AT_ONCE: u32 = 1_000_000;

/// The last chip of a description, and the last socket.
const LAST_CHIP: u32 = 15;

/// The last code of a bus step.
const LAST_CODE: u8 = 0x1F;

/// The most bytes that one command shows.
const MOST_BYTES: u32 = 16;

/// `power HH`.
#[tactic(auto, unfolding(crate::specs::Commands::power_of))]
fn power_of(byte: &[u8]) -> Result<Command, DebugCause>
    ensures value { result ≡ spelled_power byte.now }
    ensures within { IfOk result IsCommand }
{
    match byte_of(byte) {
        Some(fill) => Ok(Command::Power { fill }),
        None => Err(DebugCause::Number),
    }
}

/// `pulse C`.
#[tactic(auto, unfolding(crate::specs::Commands::pulse_of))]
fn pulse_of(chip: &[u8]) -> Result<Command, DebugCause>
    ensures value { result ≡ spelled_pulse chip.now }
    ensures within { IfOk result IsCommand }
{
    let chip = number_within(chip, 0, LAST_CHIP)?;
    Ok(Command::Pulse { chip: chip as u8 })
}

/// `step N`.
#[tactic(auto, unfolding(crate::specs::Commands::step_of))]
fn step_of(count: &[u8]) -> Result<Command, DebugCause>
    ensures value { result ≡ spelled_step count.now }
    ensures within { IfOk result IsCommand }
{
    let count = number_within(count, 0, MOST_AT_ONCE)?;
    Ok(Command::Step { count })
}

/// `run N`.
#[tactic(auto, unfolding(crate::specs::Commands::run_of))]
fn run_of(count: &[u8]) -> Result<Command, DebugCause>
    ensures value { result ≡ spelled_run count.now }
    ensures within { IfOk result IsCommand }
{
    let count = number_within(count, 0, MOST_AT_ONCE)?;
    Ok(Command::Run { count })
}

/// `back N`.
#[tactic(auto, unfolding(crate::specs::Commands::back_of))]
fn back_of(count: &[u8]) -> Result<Command, DebugCause>
    ensures value { result ≡ spelled_back count.now }
    ensures within { IfOk result IsCommand }
{
    let count = number_within(count, 1, MOST_AT_ONCE)?;
    Ok(Command::Back { count })
}

/// `back run N`.
#[tactic(auto, unfolding(crate::specs::Commands::back_run))]
fn back_run(count: &[u8]) -> Result<Command, DebugCause>
    ensures value { result ≡ spelled_back_run count.now }
    ensures within { IfOk result IsCommand }
{
    let count = number_within(count, 1, MOST_AT_ONCE)?;
    Ok(Command::BackRun { count })
}

/// `stored AAAA`.
#[tactic(auto, unfolding(crate::specs::Commands::stored_of))]
fn stored_of(at: &[u8]) -> Result<Command, DebugCause>
    ensures value { result ≡ spelled_stored at.now }
    ensures within { IfOk result IsCommand }
{
    match address_of(at) {
        Some(at) => Ok(Command::Stored { at }),
        None => Err(DebugCause::Number),
    }
}

/// `run N`, behind `back`.
fn back_with(kind: &[u8], count: &[u8]) -> Result<Command, DebugCause>
    ensures value { result ≡ spelled_back_with kind.now count.now }
    ensures within { IfOk result IsCommand }
{
    if is_word(kind, b"run") {
        return back_run(count);
    }
    Err(DebugCause::Word)
}

/// `apart`, behind `break`.
fn bare_break(kind: &[u8]) -> Result<Command, DebugCause>
    ensures value { result ≡ spelled_bare kind.now }
    ensures within { IfOk result IsCommand }
{
    if is_word(kind, b"apart") {
        return Ok(Command::BreakApart);
    }
    Err(DebugCause::Word)
}

/// `regs` or `chips`, behind `show`.
fn shown_of(what: &[u8]) -> Result<Command, DebugCause>
    ensures value { result ≡ spelled_shown what.now }
    ensures within { IfOk result IsCommand }
{
    if is_word(what, b"regs") {
        return Ok(Command::ShowRegs);
    }
    if is_word(what, b"chips") {
        return Ok(Command::ShowChips);
    }
    Err(DebugCause::Word)
}

/// `keys PP HH`.
#[tactic(auto, unfolding(crate::specs::Commands::keys_of))]
fn keys_of(port: &[u8], byte: &[u8]) -> Result<Command, DebugCause>
    ensures value { result ≡ spelled_keys port.now byte.now }
    ensures within { IfOk result IsCommand }
{
    let (Some(port), Some(byte)) = (byte_of(port), byte_of(byte)) else {
        return Err(DebugCause::Number);
    };
    Ok(Command::Keys { port, byte })
}

/// `break at AAAA`.
#[tactic(auto, unfolding(crate::specs::Commands::break_at))]
fn break_at(at: &[u8]) -> Result<Command, DebugCause>
    ensures value { result ≡ spelled_at at.now }
    ensures within { IfOk result IsCommand }
{
    match address_of(at) {
        Some(at) => Ok(Command::BreakAt { at }),
        None => Err(DebugCause::Number),
    }
}

/// `break romc RR`.
#[tactic(auto, unfolding(crate::specs::Commands::break_romc))]
fn break_romc(romc: &[u8]) -> Result<Command, DebugCause>
    ensures value { result ≡ spelled_romc romc.now }
    ensures within { IfOk result IsCommand }
{
    match byte_of(romc) {
        Some(romc) if romc <= LAST_CODE => Ok(Command::BreakRomc { romc }),
        Some(_) => Err(DebugCause::Range),
        None => Err(DebugCause::Number),
    }
}

/// `break chip S`.
#[tactic(auto, unfolding(crate::specs::Commands::break_chip))]
fn break_chip(socket: &[u8]) -> Result<Command, DebugCause>
    ensures value { result ≡ spelled_chip socket.now }
    ensures within { IfOk result IsCommand }
{
    let socket = number_within(socket, 0, LAST_CHIP)?;
    Ok(Command::BreakChip {
        socket: socket as u8,
    })
}

/// `at AAAA`, `romc RR` or `chip S`, behind `break`.
fn break_of(kind: &[u8], number: &[u8]) -> Result<Command, DebugCause>
    ensures value { result ≡ spelled_break kind.now number.now }
    ensures within { IfOk result IsCommand }
{
    if is_word(kind, b"at") {
        return break_at(number);
    }
    if is_word(kind, b"romc") {
        return break_romc(number);
    }
    if is_word(kind, b"chip") {
        return break_chip(number);
    }
    Err(DebugCause::Word)
}

/// `mem AAAA N`.
#[tactic(auto, unfolding(crate::specs::Commands::mem_of))]
fn mem_of(at: &[u8], count: &[u8]) -> Result<Command, DebugCause>
    ensures value { result ≡ spelled_mem at.now count.now }
    ensures within { IfOk result IsCommand }
{
    let Some(at) = address_of(at) else {
        return Err(DebugCause::Number);
    };
    let count = number_within(count, 1, MOST_BYTES)?;
    Ok(Command::Mem {
        at,
        count: count as u8,
    })
}

/// A line of one word.
fn alone(name: &[u8]) -> Result<Command, DebugCause>
    ensures value { result ≡ spelled_alone name.now }
    ensures within { IfOk result IsCommand }
{
    if is_word(name, b"clear") {
        return Ok(Command::Clear);
    }
    Err(DebugCause::Word)
}

/// A line of two words.
fn with_one(name: &[u8], word: &[u8]) -> Result<Command, DebugCause>
    ensures value { result ≡ spelled_one name.now word.now }
    ensures within { IfOk result IsCommand }
{
    if is_word(name, b"power") {
        return power_of(word);
    }
    if is_word(name, b"pulse") {
        return pulse_of(word);
    }
    if is_word(name, b"step") {
        return step_of(word);
    }
    if is_word(name, b"run") {
        return run_of(word);
    }
    if is_word(name, b"break") {
        return bare_break(word);
    }
    if is_word(name, b"show") {
        return shown_of(word);
    }
    if is_word(name, b"back") {
        return back_of(word);
    }
    if is_word(name, b"stored") {
        return stored_of(word);
    }
    Err(DebugCause::Word)
}

/// A line of three words.
fn with_two(name: &[u8], word: &[u8], other: &[u8]) -> Result<Command, DebugCause>
    ensures value { result ≡ spelled_two name.now word.now other.now }
    ensures within { IfOk result IsCommand }
{
    if is_word(name, b"keys") {
        return keys_of(word, other);
    }
    if is_word(name, b"break") {
        return break_of(word, other);
    }
    if is_word(name, b"mem") {
        return mem_of(word, other);
    }
    if is_word(name, b"back") {
        return back_with(word, other);
    }
    Err(DebugCause::Word)
}

/// What follows the name of a line.
#[tactic(auto, using(crate::proofs::WordNumbers::too_many_words))]
fn behind_name(name: &[u8], text: &[u8]) -> Result<Command, DebugCause>
    ensures value { result ≡ spelled_command (name.now ∷ words text.now) }
    ensures within { IfOk result IsCommand }
{
    match first_word(text) {
        (word, None) => with_one(name, word),
        (word, Some(rest)) => match only_word(rest) {
            Some(other) => with_two(name, word, other),
            None => Err(DebugCause::Word),
        },
    }
}

/// What the words of a line say.
fn command_of(line: &[u8]) -> Result<Command, DebugCause>
    ensures value { result ≡ spelled_command (words line.now) }
    ensures within { IfOk result IsCommand }
{
    match first_word(line) {
        (name, None) => alone(name),
        (name, Some(rest)) => behind_name(name, rest),
    }
}

/// What a line says, and `None` where it is skipped.
#[tactic(auto, unfolding(crate::specs::Commands::line_of))]
pub(crate) fn line_of(line: &[u8]) -> Result<Option<Command>, DebugCause>
    ensures value { result ≡ spelled_line line.now }
    ensures within { IfOk result (λ said. IfSome said IsCommand) }
{
    if is_skipped(line) {
        return Ok(None);
    }
    if !all_printable(line) {
        return Err(DebugCause::Word);
    }
    Ok(Some(command_of(line)?))
}
