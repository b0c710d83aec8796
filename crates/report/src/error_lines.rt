// The `error` lines: why a command got nothing of its words, its files or its rack.
ghost use Rattle.std.specs.Prelude.{◌≡◌, ◌+◌, ◌≤◌, ◌++◌, length, IsTrue};
ghost use Rattle.std.specs.List.{list_all};
ghost use Rattle.text_lines.specs.Printable.{is_printable};
ghost use Rattle.report.specs.ErrorLines.{words_line as spelled_words, toml_line as spelled_toml};
ghost use Rattle.report.specs.ErrorLines.{hex_line as spelled_hex, long_line as spelled_long};
ghost use Rattle.report.specs.ErrorLines.{store_line as spelled_store, number_text, chip_text};
ghost use Rattle.report.specs.ErrorLines.{cart_line as spelled_cart, source_text, asm_line as spelled_asm};
ghost use Rattle.report.specs.ErrorLines.{module_line as spelled_module, link_line as spelled_link};
ghost use Rattle.report.specs.ErrorLines.{reader_text as spelled_reader_text, reader_line as spelled_reader};
ghost use Rattle.report.specs.ErrorLines.{rack_line as spelled_rack, sockets_line as spelled_sockets};
ghost use Rattle.report.specs.ErrorLines.{kind_text as spelled_kind};

use super::line_buffer::{LINE_ROOM, Line};
use f8_spec::ChipKind;

/// `error words`: the words are none of those that the program knows.
#[tactic(auto, unfolding(crate::specs::ErrorLines::words_line))]
pub fn error_words() -> Line
    ensures { result ≡ spelled_words }
{
    let mut line = Line::new();
    line.text(b"error words\n");
    line
}

/// `error cart toml`: the description of the cartridge isn't TOML.
#[tactic(auto, unfolding(crate::specs::ErrorLines::toml_line))]
pub fn error_toml() -> Line
    ensures { result ≡ spelled_toml }
{
    let mut line = Line::new();
    line.text(b"error cart toml\n");
    line
}

/// `error hex`: a file isn't the hexadecimal digits that it has to be.
#[tactic(auto, unfolding(crate::specs::ErrorLines::hex_line))]
pub fn error_hex() -> Line
    ensures { result ≡ spelled_hex }
{
    let mut line = Line::new();
    line.text(b"error hex\n");
    line
}

/// A blank and the number, if there is one.
fn write_number(line: &mut Line, number: Option<u8>)
    requires { length line.old + 4 ≤ LINE_ROOM }
    ensures text { line.new ≡ line.old ++ number_text number }
    ensures len { length line.new ≤ length line.old + 4 }
{
    if let Some(number) = number {
        line.text(b" ");
        line.small(number);
    }
}

/// `error long`: the file that this word and number name is too long. The word has at most 16 characters of printable ASCII.
#[tactic(auto, unfolding(crate::specs::ErrorLines::long_line))]
pub fn error_long(what: &str, number: Option<u8>) -> Line
    requires short { length what.now ≤ 16 }
    requires printable { IsTrue (list_all is_printable what.now) }
    ensures { result ≡ spelled_long what.now number }
{
    let mut line = Line::new();
    line.text(b"error long ");
    line.text(what.as_bytes());
    write_number(&mut line, number);
    line.text(b"\n");
    line
}

/// `error store`: the file that this word and number name couldn't be read. The word has at most 16 characters of printable ASCII.
#[tactic(auto, unfolding(crate::specs::ErrorLines::store_line))]
pub fn error_store(what: &str, number: Option<u8>) -> Line
    requires short { length what.now ≤ 16 }
    requires printable { IsTrue (list_all is_printable what.now) }
    ensures { result ≡ spelled_store what.now number }
{
    let mut line = Line::new();
    line.text(b"error store ");
    line.text(what.as_bytes());
    write_number(&mut line, number);
    line.text(b"\n");
    line
}

/// The word `chip` and the chip's number, if there is one.
fn write_chip(line: &mut Line, chip: Option<u8>)
    requires { length line.old + 9 ≤ LINE_ROOM }
    ensures text { line.new ≡ line.old ++ chip_text chip }
    ensures len { length line.new ≤ length line.old + 9 }
{
    if let Some(chip) = chip {
        line.text(b" chip ");
        line.small(chip);
    }
}

/// `error cart`: the description of the cartridge is at fault at this key of this chip, or at its top, with the number of the cause. The
/// key has at most 16 characters of printable ASCII.
#[tactic(auto, unfolding(crate::specs::ErrorLines::cart_line))]
pub fn error_cart(chip: Option<u8>, key: &str, cause: u8) -> Line
    requires short { length key.now ≤ 16 }
    requires printable { IsTrue (list_all is_printable key.now) }
    ensures { result ≡ spelled_cart chip key.now cause }
{
    let mut line = Line::new();
    line.text(b"error cart");
    write_chip(&mut line, chip);
    line.text(b" key ");
    line.text(key.as_bytes());
    line.text(b" cause ");
    line.small(cause);
    line.text(b"\n");
    line
}

/// The word `source` and the source's number, or the word `file`.
fn write_source(line: &mut Line, source: Option<u8>)
    requires { length line.old + 11 ≤ LINE_ROOM }
    ensures text { line.new ≡ line.old ++ source_text source }
    ensures len { length line.new ≤ length line.old + 11 }
{
    match source {
        Some(source) => {
            line.text(b" source ");
            line.small(source);
        }
        None => line.text(b" file"),
    }
}

/// `error asm`: the source of a cartridge that has this number, or with `None` the one file that was given, can't be assembled: the place
/// of its first fault, and the number of the cause. Lines and columns are told as they are passed, so counted from 1.
#[tactic(auto, unfolding(crate::specs::ErrorLines::asm_line))]
pub fn error_asm(source: Option<u8>, line: u32, column: u32, cause: u8) -> Line
    ensures { result ≡ spelled_asm source line column cause }
{
    let mut told = Line::new();
    told.text(b"error asm");
    write_source(&mut told, source);
    told.text(b" line ");
    told.decimal(u64::from(line));
    told.text(b" column ");
    told.decimal(u64::from(column));
    told.text(b" cause ");
    told.small(cause);
    told.text(b"\n");
    told
}

/// `error module`: the module of a plan that has this number, counted from 0, is at fault: the place of its first fault, and the number of the
/// cause. Lines and columns are told as they are passed, so counted from 1.
#[tactic(auto, unfolding(crate::specs::ErrorLines::module_line))]
pub fn error_module(number: u8, line: u32, column: u32, cause: u8) -> Line
    ensures { result ≡ spelled_module number line column cause }
{
    let mut told = Line::new();
    told.text(b"error module ");
    told.small(number);
    told.text(b" line ");
    told.decimal(u64::from(line));
    told.text(b" column ");
    told.decimal(u64::from(column));
    told.text(b" cause ");
    told.small(cause);
    told.text(b"\n");
    told
}

/// `error link`: the modules of a plan don't go together: the number of the first that is at fault, counted from 0, and that of the cause.
#[tactic(auto, unfolding(crate::specs::ErrorLines::link_line))]
pub fn error_link(number: u8, cause: u8) -> Line
    ensures { result ≡ spelled_link number cause }
{
    let mut told = Line::new();
    told.text(b"error link module ");
    told.small(number);
    told.text(b" cause ");
    told.small(cause);
    told.text(b"\n");
    told
}

/// What reads a text line by line.
#[derive(Clone, Copy, Debug, PartialEq, Eq)]
pub enum Reader {
    /// That of scripts.
    Script,
    /// That of certificates.
    Cert,
    /// That of debugger scripts.
    Debug,
    /// That of the linker's plans.
    Plan,
}

fn reader_text(reader: Reader) -> &'static [u8]
    ensures text { result.now ≡ spelled_reader_text reader }
    ensures size { length result.now ≤ 6 }
{
    match reader {
        Reader::Script => b"script",
        Reader::Cert => b"cert",
        Reader::Debug => b"debug",
        Reader::Plan => b"plan",
    }
}

/// `error script`, `error cert`, `error debug` and `error plan`: a text is at fault at this line, with the number of the cause. The line is told as it is
/// passed, so counted from 1.
#[tactic(auto, unfolding(crate::specs::ErrorLines::reader_line))]
pub fn error_reader(reader: Reader, line: u32, cause: u8) -> Line
    ensures { result ≡ spelled_reader reader line cause }
{
    let mut told = Line::new();
    told.text(b"error ");
    told.text(reader_text(reader));
    told.text(b" line ");
    told.decimal(u64::from(line));
    told.text(b" cause ");
    told.small(cause);
    told.text(b"\n");
    told
}

/// `error rack`: the rack has so many chips, which are more than 16.
#[tactic(auto, unfolding(crate::specs::ErrorLines::rack_line))]
pub fn error_rack(count: u64) -> Line
    ensures { result ≡ spelled_rack count }
{
    let mut line = Line::new();
    line.text(b"error rack ");
    line.decimal(count);
    line.text(b"\n");
    line
}

/// The number of a kind of chip, of four digits.
pub fn kind_text(kind: ChipKind) -> &'static [u8]
    ensures text { result.now ≡ spelled_kind kind }
    ensures size { length result.now ≡ 4 }
{
    match kind {
        ChipKind::Psu => b"3851",
        ChipKind::Smi => b"3853",
        ChipKind::Pio => b"3861",
    }
}

/// `error sockets`: the rack has too few sockets for the chips of a kind: how many are needed, and how many it has.
#[tactic(auto, unfolding(crate::specs::ErrorLines::sockets_line))]
pub fn error_sockets(kind: ChipKind, need: u8, have: u8) -> Line
    ensures { result ≡ spelled_sockets kind need have }
{
    let mut line = Line::new();
    line.text(b"error sockets ");
    line.text(kind_text(kind));
    line.text(b" need ");
    line.small(need);
    line.text(b" have ");
    line.small(have);
    line.text(b"\n");
    line
}
