// The six forms of a line.
ghost use Rattle.std.specs.Prelude.{◌≡◌, IfOk, IfSome};
ghost use Rattle.line_words.specs.Words.{words};
ghost use Rattle.pad_script.specs.Limits.{IsLimited};
ghost use Rattle.pad_script.specs.Statements.{keys_at, pulse_at, power, frames, steps, show, event_of as spelled_event};
ghost use Rattle.pad_script.specs.Statements.{setting as spelled_setting, statement_of as spelled_statement};
ghost use Rattle.pad_script.specs.Statements.{line_of as spelled_line};

use super::answers::ScriptCause;
use super::script::{At, End, Event};
use line_words::{byte_of, first_word, is_skipped, is_word, number_of, number_within, only_word};
use text_lines::all_printable;

/// The last frame at which a run ends or that is shown.
const LAST_FRAME: u32 = 600;

/// The greatest number of instructions.
const MOST_INSTRUCTIONS: u32 = 1_000_000;

/// The last chip of a description.
const LAST_CHIP: u32 = 15;

/// What a line says.
#[derive(Clone, Copy)]
pub enum Statement {
    /// The power-on byte.
    Power(u8),

    /// When the run ends.
    Ends(End),

    /// An event comes.
    Comes(At),

    /// A frame is shown.
    Shows(u32),
}

/// `at F keys PP HH`, with the words of the three numbers.
fn keys_at(frame: &[u8], port: &[u8], byte: &[u8]) -> Result<Statement, ScriptCause>
    ensures value { result ≡ keys_at frame.now port.now byte.now }
    ensures limited { IfOk result IsLimited }
{
    let (Some(frame), Some(port), Some(byte)) = (number_of(frame), byte_of(port), byte_of(byte))
    else {
        return Err(ScriptCause::Number);
    };
    if frame >= LAST_FRAME {
        return Err(ScriptCause::Range);
    }
    let event = Event::Keys { port, byte };
    Ok(Statement::Comes(At { frame, event }))
}

/// `at F pulse C`, with the words of the two numbers.
fn pulse_at(frame: &[u8], chip: &[u8]) -> Result<Statement, ScriptCause>
    ensures value { result ≡ pulse_at frame.now chip.now }
    ensures limited { IfOk result IsLimited }
{
    let (Some(frame), Some(chip)) = (number_of(frame), number_of(chip)) else {
        return Err(ScriptCause::Number);
    };
    if frame >= LAST_FRAME || chip > LAST_CHIP {
        return Err(ScriptCause::Range);
    }
    let event = Event::Pulse { chip: chip as u8 };
    Ok(Statement::Comes(At { frame, event }))
}

/// `keys PP HH` or `pulse C`, behind `at` and the word of a frame.
fn event_at(frame: &[u8], text: &[u8]) -> Result<Statement, ScriptCause>
    ensures value { result ≡ spelled_event frame.now (words text.now) }
    ensures limited { IfOk result IsLimited }
{
    let (kind, Some(rest)) = first_word(text) else {
        return Err(ScriptCause::Word);
    };
    match kind {
        b"keys" => {
            let (port, Some(rest)) = first_word(rest) else {
                return Err(ScriptCause::Word);
            };
            let Some(byte) = only_word(rest) else {
                return Err(ScriptCause::Word);
            };
            keys_at(frame, port, byte)
        }
        b"pulse" => {
            let Some(chip) = only_word(rest) else {
                return Err(ScriptCause::Word);
            };
            pulse_at(frame, chip)
        }
        _ => Err(ScriptCause::Word),
    }
}

/// `power HH`.
#[tactic(auto, unfolding(crate::specs::Statements::power))]
fn power(byte: &[u8]) -> Result<Statement, ScriptCause>
    ensures value { result ≡ power byte.now }
    ensures limited { IfOk result IsLimited }
{
    match byte_of(byte) {
        Some(byte) => Ok(Statement::Power(byte)),
        None => Err(ScriptCause::Number),
    }
}

/// `frames N`.
#[tactic(auto, unfolding(crate::specs::Statements::frames))]
fn frames(count: &[u8]) -> Result<Statement, ScriptCause>
    ensures value { result ≡ frames count.now }
    ensures limited { IfOk result IsLimited }
{
    let count = number_within(count, 1, LAST_FRAME)?;
    Ok(Statement::Ends(End::Frames(count)))
}

/// `steps N`.
#[tactic(auto, unfolding(crate::specs::Statements::steps))]
fn steps(count: &[u8]) -> Result<Statement, ScriptCause>
    ensures value { result ≡ steps count.now }
    ensures limited { IfOk result IsLimited }
{
    let count = number_within(count, 0, MOST_INSTRUCTIONS)?;
    Ok(Statement::Ends(End::Steps(count)))
}

/// `show F`.
#[tactic(auto, unfolding(crate::specs::Statements::show))]
fn show(frame: &[u8]) -> Result<Statement, ScriptCause>
    ensures value { result ≡ show frame.now }
    ensures limited { IfOk result IsLimited }
{
    let frame = number_within(frame, 1, LAST_FRAME)?;
    Ok(Statement::Shows(frame))
}

/// A line of a name and one word.
fn setting(name: &[u8], value: &[u8]) -> Result<Statement, ScriptCause>
    ensures value { result ≡ spelled_setting name.now value.now }
    ensures limited { IfOk result IsLimited }
{
    if is_word(name, b"power") {
        return power(value);
    }
    if is_word(name, b"frames") {
        return frames(value);
    }
    if is_word(name, b"steps") {
        return steps(value);
    }
    if is_word(name, b"show") {
        return show(value);
    }
    Err(ScriptCause::Word)
}

/// What the words of a line say.
fn statement_of(line: &[u8]) -> Result<Statement, ScriptCause>
    ensures value { result ≡ spelled_statement (words line.now) }
    ensures limited { IfOk result IsLimited }
{
    let (name, Some(rest)) = first_word(line) else {
        return Err(ScriptCause::Word);
    };
    if is_word(name, b"at") {
        let (frame, Some(rest)) = first_word(rest) else {
            return Err(ScriptCause::Word);
        };
        return event_at(frame, rest);
    }
    let Some(value) = only_word(rest) else {
        return Err(ScriptCause::Word);
    };
    setting(name, value)
}

/// What a line says, and `None` where it is skipped.
#[tactic(auto, unfolding(crate::specs::Statements::line_of))]
pub fn line_of(line: &[u8]) -> Result<Option<Statement>, ScriptCause>
    ensures value { result ≡ spelled_line line.now }
    ensures limited { IfOk result (λ said. IfSome said IsLimited) }
{
    if is_skipped(line) {
        return Ok(None);
    }
    if !all_printable(line) {
        return Err(ScriptCause::Word);
    }
    Ok(Some(statement_of(line)?))
}
