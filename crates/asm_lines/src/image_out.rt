// The lines of an image, one after the other.
ghost use Rattle.std.specs.Prelude.{◌≡◌, ◌≤◌, ◌<◌, ◌++◌, length, map, min, OnOk, OnErr};
ghost use Rattle.console_spec.specs.RunText.{text_of};
ghost use Rattle.outside.specs.SinkRules.{Adds, AddsPart};
ghost use Rattle.asm_lines.specs.ImageLines.{byte_line as spelled_bytes, byte_lines};
ghost use Rattle.asm_lines.specs.ImageLines.{symbol_line as spelled_symbol, symbol_lines, image_lines};
ghost use Rattle.asm_lines.specs.Rows.{following};

use f8_asm::{Image, Symbols};
use f8_link::Linked;
use outside::{Sink, SinkFault};
use report::Line;

/// The most bytes that a line has.
const ROW: usize = 16;

/// How many of the first entries lie at this address and those that follow it, counted up to 16.
fn row_length(first: u16, entries: &[(u16, u8)]) -> usize
    ensures { result ≡ min 16 (following first entries.now) }
{
    let mut next = u32::from(first);
    let mut count = 0;
    for (at, _byte) in entries {
        if count == ROW || u32::from(*at) != next {
            break;
        }
        count += 1;
        next += 1;
    }
    count
}

/// The line of some entries, at most 16, that lie at this address and those that follow it.
fn byte_line(first: u16, entries: &[(u16, u8)]) -> Line
    requires { length entries.now ≤ 16 }
    ensures { result
        ≡ spelled_bytes (record { first = first; bytes = map (λ e. e.1) entries.now }) }
{
    let mut line = Line::new();
    line.hex4(first);
    line.text(b" ");
    for (_at, byte) in entries {
        line.hex2(*byte);
    }
    line.text(b"\n");
    line
}

fn put_bytes<K: Sink>(sink: &mut K, entries: &[(u16, u8)]) -> Result<(), SinkFault>
    ensures ok { OnOk result (Adds (K.output sink.old) (K.output sink.new)
        (text_of (byte_lines entries.now))) }
    ensures err { OnErr result (AddsPart (K.output sink.old) (K.output sink.new)
        (text_of (byte_lines entries.now))) }
{
    let mut rest = entries;
    while let Some(((first, _byte), _others)) = rest.split_first() {
        let (row, behind) = rest.split_at(row_length(*first, rest));
        sink.put(byte_line(*first, row).as_bytes())?;
        rest = behind;
    }
    Ok(())
}

/// The line of a name, of at most 32 bytes, and its value.
#[tactic(auto, unfolding(crate::specs::ImageLines::symbol_line))]
fn symbol_line(name: &str, value: i64) -> Line
    requires { length name.now ≤ 32 }
    ensures { result ≡ spelled_symbol (name.now, value) }
{
    let mut line = Line::new();
    line.text(b"sym ");
    line.text(name.as_bytes());
    line.text(b" ");
    line.signed(value);
    line.text(b"\n");
    line
}

fn put_symbols<K: Sink>(sink: &mut K, symbols: &Symbols<i64>) -> Result<(), SinkFault>
    ensures ok { OnOk result (Adds (K.output sink.old) (K.output sink.new)
        (text_of (symbol_lines symbols.now))) }
    ensures err { OnErr result (AddsPart (K.output sink.old) (K.output sink.new)
        (text_of (symbol_lines symbols.now))) }
{
    for k in 0..symbols.len() {
        if let Some((name, value)) = symbols.get(k) {
            sink.put(symbol_line(name, value).as_bytes())?;
        }
    }
    Ok(())
}

/// The lines of bytes with their addresses, and then those of names with their values.
fn put_picture<K: Sink>(
    sink: &mut K,
    bytes: &[(u16, u8)],
    symbols: &Symbols<i64>,
) -> Result<(), SinkFault>
    ensures ok { OnOk result (Adds (K.output sink.old) (K.output sink.new)
        (text_of (byte_lines bytes.now ++ symbol_lines symbols.now))) }
    ensures err { OnErr result (AddsPart (K.output sink.old) (K.output sink.new)
        (text_of (byte_lines bytes.now ++ symbol_lines symbols.now))) }
{
    put_bytes(sink, bytes)?;
    put_symbols(sink, symbols)
}

/// Writes the lines of an image, each as one put. First come the bytes by ascending address: four hexadecimal digits of the address, a
/// blank, and two for each byte. A line ends where the next byte doesn't lie at the next address, and 16 bytes behind the line's first.
/// Then come the names in the order in which they were defined, as `sym`, the name and its value in decimal digits, with `-` before it
/// where it's negative.
///
/// # Errors
///
/// The sink failed at a line, and a first part of the lines was written.
#[tactic(auto, unfolding(crate::specs::ImageLines::image_lines))]
pub fn put_image<K: Sink>(sink: &mut K, image: &Image) -> Result<(), SinkFault>
    ensures ok { OnOk result (Adds (K.output sink.old) (K.output sink.new)
        (text_of (image_lines image.now))) }
    ensures err { OnErr result (AddsPart (K.output sink.old) (K.output sink.new)
        (text_of (image_lines image.now))) }
{
    put_picture(sink, image.bytes(), image.symbols())
}

/// Writes the lines of linked modules, as those of an image: the bytes, and then the exported names in the order in which the modules export
/// them.
///
/// # Errors
///
/// The sink failed at a line, and a first part of the lines was written.
#[tactic(auto, unfolding(crate::specs::ImageLines::image_lines))]
pub fn put_linked<K: Sink>(sink: &mut K, linked: &Linked) -> Result<(), SinkFault>
    ensures ok { OnOk result (Adds (K.output sink.old) (K.output sink.new)
        (text_of (image_lines linked.now))) }
    ensures err { OnErr result (AddsPart (K.output sink.old) (K.output sink.new)
        (text_of (image_lines linked.now))) }
{
    put_picture(sink, linked.bytes(), linked.symbols())
}
