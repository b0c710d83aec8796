// The text of an invariant map.
ghost use Rattle.std.specs.Prelude.{◌≡◌, ◌<◌, ◌+◌, ◌*◌, ◌≤◌, ◌++◌, OnOk, IfOk, length, codes, map};
ghost use Rattle.std.specs.Option.{ForSome};
ghost use Rattle.abs_domain.specs.KnownParts.{known_byte};
ghost use Rattle.abs_domain.specs.StateView.{status_of, counters_of, state_of};
ghost use Rattle.abs_step.specs.StatesAtPoints.{states_of};
ghost use Rattle.f8_spec.specs.Spelling.{hex2, hex4};
ghost use Rattle.certificate.specs.Parts.{bit_text, known_byte_text, known_address_text, known_octal_text};
ghost use Rattle.certificate.specs.Parts.{known_bit_text};
ghost use Rattle.certificate.specs.Parts.{bytes_text, values_text};
ghost use Rattle.certificate.specs.Entries.{point_text, status_text, counters_text, entry_text};
ghost use Rattle.certificate.specs.CertificateText.{header_text, line_text, entries_text, certificate_text};
ghost use Rattle.certificate.specs.CertificateText.{certificate_of};
ghost use Rattle.certificate.specs.CertificateLaws.{HaveSplit, IsInRange, AllInRange};

use super::ranges::entry_law;
use abs_domain::{Abs, Bit, Digit, Point, SCRATCHPAD_SIZE, Val, Word};
use abs_step::Annotation;
use cart_data::Split;
use f8_asm::Text;
use f8_spec::Memory;
use std::alloc::{AllocError, Global};
use std::collections::BTreeMap;
use text_lines::hex2;

/// The most bytes of the first line, and of a line behind it.
const FIRST_LINE_ROOM: usize = 15;

const LINE_ROOM: usize = 195;

/// Writes a byte as two hexadecimal digits.
fn put_byte(out: &mut Vec<u8>, byte: u8) -> Result<(), AllocError>
    ensures { OnOk result (out.new.items ≡ out.old.items ++ hex2 byte) }
{
    out.extend_from_slice(&hex2(byte))
}

/// Writes an address as four hexadecimal digits.
fn put_address(out: &mut Vec<u8>, at: u16) -> Result<(), AllocError>
    ensures { OnOk result (out.new.items ≡ out.old.items ++ hex4 at) }
{
    put_byte(out, (at / 256) as u8)?;
    put_byte(out, (at % 256) as u8)
}

/// Writes a bit as `0` or `1`.
fn put_bit(out: &mut Vec<u8>, bit: bool) -> Result<(), AllocError>
    ensures { OnOk result (out.new.items ≡ out.old.items ++ bit_text bit) }
{
    out.push(if bit { b'1' } else { b'0' })?;
    Ok(())
}

/// Writes a byte, or dashes where it is unknown.
fn put_known_byte(out: &mut Vec<u8>, byte: Option<u8>) -> Result<(), AllocError>
    ensures { OnOk result (out.new.items ≡ out.old.items ++ known_byte_text byte) }
{
    match byte {
        Some(byte) => put_byte(out, byte),
        None => out.extend_from_slice(b"--"),
    }
}

/// Writes an address, or dashes where it is unknown.
fn put_known_address(out: &mut Vec<u8>, at: Option<u16>) -> Result<(), AllocError>
    ensures { OnOk result (out.new.items ≡ out.old.items ++ known_address_text at) }
{
    match at {
        Some(at) => put_address(out, at),
        None => out.extend_from_slice(b"----"),
    }
}

/// Writes an octal digit, or a dash where it is unknown.
fn put_known_octal(out: &mut Vec<u8>, digit: Option<u8>) -> Result<(), AllocError>
    requires { ForSome digit (λ digit. digit < 8) }
    ensures { OnOk result (out.new.items ≡ out.old.items ++ known_octal_text digit) }
{
    match digit {
        Some(digit) => out.push(b'0' + digit)?,
        None => out.push(b'-')?,
    }
    Ok(())
}

/// Writes a bit, or a dash where it is unknown.
fn put_known_bit(out: &mut Vec<u8>, bit: Option<bool>) -> Result<(), AllocError>
    ensures { OnOk result (out.new.items ≡ out.old.items ++ known_bit_text bit) }
{
    match bit {
        Some(bit) => put_bit(out, bit),
        None => {
            out.push(b'-')?;
            Ok(())
        },
    }
}

/// Writes bytes of tracked registers with commas between, or a full stop where none is tracked.
fn put_values(out: &mut Vec<u8>, values: &[Option<u8>]) -> Result<(), AllocError>
    ensures { OnOk result (out.new.items ≡ out.old.items ++ values_text values.now) }
{
    let Some((first, others)) = values.split_first() else {
        return out.extend_from_slice(b".");
    };
    put_known_byte(out, *first)?;
    for value in others {
        out.push(b',')?;
        put_known_byte(out, *value)?;
    }
    Ok(())
}

/// Writes the bytes of the scratchpad.
fn put_scratchpad(out: &mut Vec<u8>, registers: &[Val; SCRATCHPAD_SIZE]) -> Result<(), AllocError>
    ensures { OnOk result (out.new.items
        ≡ out.old.items ++ bytes_text (codes "") (map known_byte registers.now)) }
{
    for register in registers {
        put_known_byte(out, register.known())?;
    }
    Ok(())
}

/// Writes a blank.
fn put_blank(out: &mut Vec<u8>) -> Result<(), AllocError>
    ensures { OnOk result (out.new.items ≡ out.old.items ++ codes " ") }
{
    out.push(b' ')?;
    Ok(())
}

/// Writes a point with the bytes of so many tracked registers.
#[tactic(auto, unfolding(crate::specs::Entries::point_text))]
fn put_point(out: &mut Vec<u8>, tracked: usize, point: &Point) -> Result<(), AllocError>
    requires { tracked ≤ 8 }
    ensures { OnOk result (out.new.items ≡ out.old.items ++ point_text tracked point.now) }
{
    put_address(out, point.at)?;
    put_blank(out)?;
    put_known_address(out, point.ret)?;
    put_blank(out)?;
    put_values(out, &point.split[..tracked])
}

/// Writes the five bits of a status word, from bit 0 on.
#[tactic(auto, unfolding(crate::specs::Entries::status_text))]
fn put_status(out: &mut Vec<u8>, bits: &[Bit; 5]) -> Result<(), AllocError>
    ensures { OnOk result (out.new.items ≡ out.old.items ++ status_text (status_of bits.now)) }
{
    put_known_bit(out, bits[0].known())?;
    put_known_bit(out, bits[1].known())?;
    put_known_bit(out, bits[2].known())?;
    put_known_bit(out, bits[3].known())?;
    put_known_bit(out, bits[4].known())
}

/// Writes the data counters with the facts about them.
#[tactic(auto, unfolding(crate::specs::Entries::counters_text))]
fn put_counters(out: &mut Vec<u8>, state: &Abs) -> Result<(), AllocError>
    ensures { OnOk result (out.new.items
        ≡ out.old.items ++ counters_text (counters_of state.now)) }
{
    put_known_address(out, state.d0.known())?;
    put_blank(out)?;
    put_known_address(out, state.d1.known())?;
    put_blank(out)?;
    put_known_address(out, state.c.known())?;
    put_blank(out)?;
    put_bit(out, state.s0)?;
    put_bit(out, state.s1)?;
    put_bit(out, state.p0)?;
    put_bit(out, state.p1)
}

/// Writes the line of a point with its state, without its end.
#[tactic(auto, unfolding(crate::specs::Entries::entry_text))]
fn put_entry(
    out: &mut Vec<u8>,
    tracked: usize,
    point: &Point,
    state: &Abs,
) -> Result<(), AllocError>
    requires { tracked ≤ 8 }
    ensures text { OnOk result (out.new.items
        ≡ out.old.items ++ entry_text tracked (point.now, state_of state.now)) }
    ensures range { OnOk result (IsInRange (point.now, state_of state.now)) }
{
    entry_law(point, state);
    put_point(out, tracked, point)?;
    put_blank(out)?;
    put_known_byte(out, state.a.known())?;
    put_blank(out)?;
    put_known_octal(out, state.hi.known())?;
    put_known_octal(out, state.lo.known())?;
    put_blank(out)?;
    put_status(out, &state.w)?;
    put_blank(out)?;
    put_counters(out, state)?;
    put_blank(out)?;
    put_scratchpad(out, &state.regs)
}

/// Writes the first line.
#[tactic(auto, unfolding(crate::specs::CertificateText::header_text))]
fn put_header(out: &mut Vec<u8>, count: usize) -> Result<(), AllocError>
    ensures { OnOk result (out.new.items ≡ out.old.items ++ line_text (header_text count)) }
{
    let mut digits = itoa::Buffer::new();
    out.extend_from_slice(b"F8CERT 1 ")?;
    out.extend_from_slice(digits.format(count).as_bytes())?;
    out.push(b'\n')?;
    Ok(())
}

/// Writes the lines of all points.
fn put_entries(
    out: &mut Vec<u8>,
    tracked: usize,
    notes: &BTreeMap<Point, Abs>,
) -> Result<(), AllocError>
    requires { tracked ≤ 8 }
    ensures text { OnOk result (out.new.items
        ≡ out.old.items ++ entries_text tracked (states_of notes.now.entries)) }
    ensures ranges { OnOk result (AllInRange (states_of notes.now.entries)) }
{
    for (point, state) in notes {
        put_entry(out, tracked, point, state)?;
        out.push(b'\n')?;
    }
    Ok(())
}

/// All lines of a certificate, where so many registers are tracked.
fn text_of(alloc: Global, tracked: usize, notes: &Annotation) -> Result<Vec<u8>, AllocError>
    requires { tracked ≤ 8 }
    ensures text { IfOk result (λ text. text.items
        ≡ line_text (header_text (length notes.now)) ++ entries_text tracked notes.now) }
    ensures ranges { OnOk result (AllInRange notes.now) }
{
    let mut out = Vec::with_capacity(alloc, FIRST_LINE_ROOM + LINE_ROOM * notes.len())?;
    put_header(&mut out, notes.len())?;
    put_entries(&mut out, tracked, notes.as_map())?;
    Ok(out)
}

/// The text of a certificate: a first line with the number of points, and a line for each point with its state. Where points and states
/// fit each other, and there is at least one, `read_cert` gives the map again. It has at most 15 bytes, and 195 more for each point.
///
/// # Errors
///
/// Memory is missing.
#[tactic(auto, unfolding(crate::specs::CertificateText::certificate_text))]
pub fn write_cert(alloc: Global, notes: &Annotation, split: &Split) -> Result<Text, Memory>
    ensures text { IfOk result (λ text. text ≡ certificate_text split.now notes.now) }
    ensures size { IfOk result (λ text. length text ≤ 15 + 195 * length notes.now) }
    ensures round_trip { IfOk result (λ text. HaveSplit split.now notes.now → 1 ≤ length notes.now
        → certificate_of split.now text ≡ Ok notes.now) }
{
    let tracked = split.len();
    // That points ascend, and that there aren't too many, is known by the count.
    let _count = notes.len();
    match text_of(alloc, tracked, notes) {
        Ok(text) => Ok(Text::from_vec(text)),
        Err(_) => Err(Memory),
    }
}
