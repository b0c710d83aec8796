// The line of an entry, as it is written.
ghost use Rattle.std.specs.Prelude.{◌≡◌, ◌++◌, OnOk, IfOk, codes, flat_map, map};
ghost use Rattle.abs_domain.specs.KnownParts.{known_bit};
ghost use Rattle.abs_domain.specs.StateView.{status_of};
ghost use Rattle.f8_spec.specs.Spelling.{hex2, hex4, octal2};
ghost use Rattle.certificate.specs.Parts.{bit_text, known_bit_text, known_address_text};
ghost use Rattle.certificate.specs.Entries.{status_text};
ghost use Rattle.value_sets.specs.SetViews.{byte_values, word_values};
ghost use Rattle.case_step.specs.EntryViews.{entry_view};
ghost use Rattle.case_text.specs.WrittenCases.{byte_set_text, word_set_text, numbers_text, same_text, facts_text};
ghost use Rattle.case_text.specs.WrittenCases.{behind_blank};
ghost use Rattle.case_text.specs.WrittenCases.{entry_text};

use abs_domain::{Bit, SCRATCHPAD_SIZE};
use case_step::Entry;
use std::alloc::{AllocError, Global};
use text_lines::hex2;
use value_sets::{ByteSet, WordSet};

/// How many numbers registers have.
const ALL_NUMBERS: usize = 64;

// ---- numbers

/// Writes a byte as two hexadecimal digits.
fn put_byte(out: &mut Vec<u8>, byte: u8) -> Result<(), AllocError>
    ensures { OnOk result (out.new.items ≡ out.old.items ++ hex2 byte) }
{
    out.extend_from_slice(&hex2(byte))
}

/// Writes a word as four hexadecimal digits, the high byte first.
fn put_word(out: &mut Vec<u8>, word: u16) -> Result<(), AllocError>
    ensures { OnOk result (out.new.items ≡ out.old.items ++ hex4 word) }
{
    put_byte(out, (word / 256) as u8)?;
    put_byte(out, (word % 256) as u8)
}

/// Writes the number of a register as two octal digits.
fn put_octal(out: &mut Vec<u8>, number: u8) -> Result<(), AllocError>
    ensures { OnOk result (out.new.items ≡ out.old.items ++ octal2 number) }
{
    out.extend_from_slice(&[b'0' + number / 8, b'0' + number % 8])
}

// ---- parts

/// Writes a blank.
fn put_blank(out: &mut Vec<u8>) -> Result<(), AllocError>
    ensures { OnOk result (out.new.items ≡ out.old.items ++ codes " ") }
{
    out.push(b' ')?;
    Ok(())
}

/// Writes a return, or dashes for any.
fn put_return(out: &mut Vec<u8>, at: Option<u16>) -> Result<(), AllocError>
    ensures { OnOk result (out.new.items ≡ out.old.items ++ known_address_text at) }
{
    match at {
        Some(at) => put_word(out, at),
        None => out.extend_from_slice(b"----"),
    }
}

/// Writes the bytes of a list.
fn put_bytes(out: &mut Vec<u8>, bytes: &[u8]) -> Result<(), AllocError>
    ensures { OnOk result (out.new.items ≡ out.old.items ++ flat_map hex2 bytes.now) }
{
    for byte in bytes {
        put_byte(out, *byte)?;
    }
    Ok(())
}

/// Writes a set of bytes, or dashes for any.
fn put_byte_set(out: &mut Vec<u8>, set: &ByteSet) -> Result<(), AllocError>
    ensures { OnOk result (out.new.items ≡ out.old.items ++ byte_set_text (byte_values set.now)) }
{
    match set {
        ByteSet::Among(bytes) => put_bytes(out, bytes.as_slice()),
        ByteSet::Any => out.extend_from_slice(b"--"),
    }
}

/// Writes the words of a list.
fn put_words(out: &mut Vec<u8>, words: &[u16]) -> Result<(), AllocError>
    ensures { OnOk result (out.new.items ≡ out.old.items ++ flat_map hex4 words.now) }
{
    for word in words {
        put_word(out, *word)?;
    }
    Ok(())
}

/// Writes a set of words, or dashes for any.
fn put_word_set(out: &mut Vec<u8>, set: &WordSet) -> Result<(), AllocError>
    ensures { OnOk result (out.new.items ≡ out.old.items ++ word_set_text (word_values set.now)) }
{
    match set {
        WordSet::Among(words) => put_words(out, words.as_slice()),
        WordSet::Any => out.extend_from_slice(b"----"),
    }
}

/// Writes the numbers that ISAR may have, or dashes for all of them.
fn put_numbers(out: &mut Vec<u8>, numbers: &[u8]) -> Result<(), AllocError>
    ensures { OnOk result (out.new.items ≡ out.old.items ++ numbers_text numbers.now) }
{
    if numbers.len() == ALL_NUMBERS {
        return out.extend_from_slice(b"--");
    }
    for number in numbers {
        put_octal(out, *number)?;
    }
    Ok(())
}

/// Writes the register that holds the accumulator's byte, or dashes for none.
fn put_same(out: &mut Vec<u8>, number: Option<u8>) -> Result<(), AllocError>
    ensures { OnOk result (out.new.items ≡ out.old.items ++ same_text number) }
{
    match number {
        Some(number) => put_octal(out, number),
        None => out.extend_from_slice(b"--"),
    }
}

/// Writes a fact as `0` or `1`.
fn put_fact(out: &mut Vec<u8>, fact: bool) -> Result<(), AllocError>
    ensures { OnOk result (out.new.items ≡ out.old.items ++ bit_text fact) }
{
    out.push(if fact { b'1' } else { b'0' })?;
    Ok(())
}

/// Writes a flag, or a dash for either.
fn put_flag(out: &mut Vec<u8>, flag: &Bit) -> Result<(), AllocError>
    ensures { OnOk result (out.new.items ≡ out.old.items ++ known_bit_text (known_bit flag.now)) }
{
    match flag {
        Bit::Known(bit) => put_fact(out, *bit),
        Bit::Any => {
            out.push(b'-')?;
            Ok(())
        },
    }
}

/// Writes the five bits of a status word, from bit 0 on.
#[tactic(auto, unfolding(certificate::specs::Entries::status_text))]
fn put_status(out: &mut Vec<u8>, bits: &[Bit; 5]) -> Result<(), AllocError>
    ensures { OnOk result (out.new.items ≡ out.old.items ++ status_text (status_of bits.now)) }
{
    let [sign, carry, zero, overflow, icb] = bits;
    put_flag(out, sign)?;
    put_flag(out, carry)?;
    put_flag(out, zero)?;
    put_flag(out, overflow)?;
    put_flag(out, icb)
}

/// Writes the four facts.
fn put_facts(out: &mut Vec<u8>, entry: &Entry) -> Result<(), AllocError>
    ensures { OnOk result (out.new.items ≡ out.old.items ++ facts_text (entry_view entry.now)) }
{
    put_fact(out, entry.s0)?;
    put_fact(out, entry.s1)?;
    put_fact(out, entry.p0)?;
    put_fact(out, entry.p1)
}

/// Writes the sets of the scratchpad, a blank before each.
fn put_scratchpad(
    out: &mut Vec<u8>,
    registers: &[ByteSet; SCRATCHPAD_SIZE],
) -> Result<(), AllocError>
    ensures { OnOk result (out.new.items
        ≡ out.old.items ++ flat_map (λ set. behind_blank (byte_set_text set))
        (map byte_values registers.now)) }
{
    for register in registers {
        put_blank(out)?;
        put_byte_set(out, register)?;
    }
    Ok(())
}

// ---- a line

/// Writes the line of an entry, without its end.
#[tactic(auto, unfolding(crate::specs::WrittenCases::entry_text))]
fn put_entry(out: &mut Vec<u8>, entry: &Entry) -> Result<(), AllocError>
    ensures { OnOk result (out.new.items ≡ out.old.items ++ entry_text (entry_view entry.now)) }
{
    put_word(out, entry.at)?;
    put_blank(out)?;
    put_return(out, entry.ret)?;
    put_blank(out)?;
    put_byte_set(out, &entry.a)?;
    put_blank(out)?;
    put_numbers(out, entry.isar.as_slice())?;
    put_blank(out)?;
    put_status(out, &entry.w)?;
    put_blank(out)?;
    put_word_set(out, &entry.d0)?;
    put_blank(out)?;
    put_word_set(out, &entry.d1)?;
    put_blank(out)?;
    put_word_set(out, &entry.c)?;
    put_blank(out)?;
    put_facts(out, entry)?;
    put_blank(out)?;
    put_same(out, entry.same)?;
    put_scratchpad(out, &entry.regs)
}

/// The line of an entry, without its end and with no room to spare.
pub fn line_of(alloc: Global, entry: &Entry) -> Result<Vec<u8>, AllocError>
    ensures { IfOk result (λ line. line.items ≡ entry_text (entry_view entry.now)) }
{
    let mut line = Vec::new(alloc);
    put_entry(&mut line, entry)?;
    line.shrink_to_fit();
    Ok(line)
}
