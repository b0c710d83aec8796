// The bus step that the words of a line spell.
ghost use Rattle.std.specs.Prelude.{◌≡◌};
ghost use Rattle.line_words.specs.Words.{words};
ghost use Rattle.bus_audit.specs.TraceText.{byte_of as spelled_byte, code_of as spelled_code};
ghost use Rattle.bus_audit.specs.TraceText.{digit_of as spelled_digit};
ghost use Rattle.bus_audit.specs.TraceText.{is_long as spelled_length, socket_of as spelled_socket};
ghost use Rattle.bus_audit.specs.TraceText.{who_of as spelled_who};
ghost use Rattle.bus_audit.specs.TraceText.{what_of as spelled_what, step_of as spelled_step};

use super::step::{TraceStep, TraceWhat};
use console_spec::Who;
use line_words::{first_word, is_word, only_word};
use romc_table::Romc;

/// The value of a hexadecimal digit, a capital from ten on.
fn digit_of(character: u8) -> Option<u8>
    ensures { result ≡ spelled_digit character }
{
    match character {
        b'0'..=b'9' => Some(character - b'0'),
        b'A'..=b'F' => Some(character - b'A' + 10),
        _ => None,
    }
}

/// The byte of two hexadecimal digits.
#[tactic(auto, unfolding(crate::specs::TraceText::byte_of))]
fn byte_of(word: &[u8]) -> Option<u8>
    ensures { result ≡ spelled_byte word.now }
{
    let [high, low] = word else {
        return None;
    };
    Some(16 * digit_of(*high)? + digit_of(*low)?)
}

/// The code of two hexadecimal digits, below 20.
#[tactic(auto, unfolding(crate::specs::TraceText::code_of))]
fn code_of(word: &[u8]) -> Option<Romc>
    ensures { result ≡ spelled_code word.now }
{
    Romc::of(byte_of(word)?)
}

/// Whether a step is a long one: `L`, or `S` for a short one.
#[tactic(auto, unfolding(crate::specs::TraceText::is_long))]
fn is_long(word: &[u8]) -> Option<bool>
    ensures { result ≡ spelled_length word.now }
{
    if is_word(word, b"L") {
        return Some(true);
    }
    if is_word(word, b"S") {
        return Some(false);
    }
    None
}

/// The number of a socket, 0 to 15 in decimal.
fn socket_of(word: &[u8]) -> Option<u8>
    ensures { result ≡ spelled_socket word.now }
{
    match word {
        [digit @ b'0'..=b'9'] => Some(*digit - b'0'),
        [b'1', digit @ b'0'..=b'5'] => Some(10 + (*digit - b'0')),
        _ => None,
    }
}

/// Who drove a byte: `cpu`, `-` for nobody, or a socket.
#[tactic(auto, unfolding(crate::specs::TraceText::who_of))]
fn who_of(word: &[u8]) -> Option<Who>
    ensures { result ≡ spelled_who word.now }
{
    if is_word(word, b"cpu") {
        return Some(Who::Cpu);
    }
    if is_word(word, b"-") {
        return Some(Who::Nobody);
    }
    Some(Who::Socket(socket_of(word)?))
}

/// What became of a step: `-- fault`, or its byte and who drove that.
#[tactic(auto, unfolding(crate::specs::TraceText::what_of))]
fn what_of(byte: &[u8], who: &[u8]) -> Option<TraceWhat>
    ensures { result ≡ spelled_what byte.now who.now }
{
    if is_word(byte, b"--") && is_word(who, b"fault") {
        return Some(TraceWhat::Fault);
    }
    Some(TraceWhat::Byte {
        byte: byte_of(byte)?,
        who: who_of(who)?,
    })
}

/// The step that the words behind `bus ` spell, `RR S BB WHO` or `RR S -- fault`, and `None` where they spell none.
#[tactic(auto, unfolding(crate::specs::TraceText::step_of))]
pub fn step_of(text: &[u8]) -> Option<TraceStep>
    ensures { result ≡ spelled_step (words text.now) }
{
    let (code, rest) = first_word(text);
    let (long, rest) = first_word(rest?);
    let (byte, rest) = first_word(rest?);
    let who = only_word(rest?)?;
    Some(TraceStep {
        romc: code_of(code)?,
        long: is_long(long)?,
        what: what_of(byte, who)?,
    })
}
