// The lines of a text, one after the other.
ghost use Rattle.std.specs.Prelude.{◌≡◌, ◌==◌, ◌≤◌, ◌<◌, length, position, IfSome, OnOk, OnErr};
ghost use Rattle.outside.specs.SinkRules.{Adds, AddsPart};
ghost use Rattle.asm_lines.specs.ListingLines.{first_line_length};

use f8_asm::Text;
use outside::{Sink, SinkFault};

/// Where the first line feed stands.
fn line_feed(text: &[u8]) -> Option<usize>
    ensures place { result ≡ position (λ b. b == 10) text.now }
    ensures within { IfSome result (λ at. at < length text.now) }
{
    text.iter().position(|byte| *byte == b'\n')
}

/// How many bytes the first line has, the line feed that ends it among them.
fn first_line_length(text: &[u8]) -> usize
    ensures value { result ≡ first_line_length text.now }
    ensures within { result ≤ length text.now }
    ensures some { 0 < length text.now → 0 < result }
{
    match line_feed(text) {
        Some(at) => at + 1,
        None => text.len(),
    }
}

/// Writes a text, as `disassemble` gives it: each line, with the line feed that ends it, is one put.
///
/// # Errors
///
/// The sink failed at a line, and a first part of the text was written.
pub fn put_listing<K: Sink>(sink: &mut K, text: &Text) -> Result<(), SinkFault>
    ensures ok { OnOk result (Adds (K.output sink.old) (K.output sink.new) text.now) }
    ensures err { OnErr result (AddsPart (K.output sink.old) (K.output sink.new) text.now) }
{
    let mut rest = text.as_bytes();
    while !rest.is_empty() {
        let (line, behind) = rest.split_at(first_line_length(rest));
        sink.put(line)?;
        rest = behind;
    }
    Ok(())
}
