// The bytes that a text of digits spells.
ghost use Rattle.std.specs.Prelude.{◌≡◌, ◌≤◌, IfOk, vec_len};
ghost use Rattle.hex_file.specs.DigitText.{bytes_of_text, is_blank};
ghost use Rattle.hex_file.specs.Answers.{SaysOfText};

use super::answer::HexAnswer;
use hex::FromHexError;
use std::alloc::Global;

/// The most bytes that a text may spell.
pub const BYTE_LIMIT: usize = 65_536;

/// A tab, a line feed, a carriage return or a space.
fn is_blank(byte: u8) -> bool
    ensures { result ≡ is_blank byte }
{
    matches!(byte, b'\t' | b'\n' | b'\r' | b' ')
}

/// The bytes that a text of hexadecimal digits spells, two digits a byte, in either case. Tabs, line feeds, carriage returns and spaces
/// are passed over, also between the two digits of a byte.
///
/// `Digits`: what is left isn't pairs of digits. `Long`: it is, and spells more than 65,536 bytes. `Memory`: memory is missing; it says
/// nothing of the text.
pub fn read_hex(alloc: Global, text: &[u8]) -> Result<Vec<u8>, HexAnswer>
    ensures bytes { SaysOfText result (bytes_of_text text.now) }
    ensures limit { IfOk result (λ bytes. vec_len bytes ≤ BYTE_LIMIT) }
{
    let digits: Vec<u8> = text
        .iter()
        .copied()
        .filter(|byte| !is_blank(*byte))
        .collect(alloc)?;
    match hex::decode(alloc, digits.as_slice()) {
        Ok(bytes) if bytes.len() <= BYTE_LIMIT => Ok(bytes),
        Ok(_) => Err(HexAnswer::Long),
        Err(FromHexError::OutOfMemory) => Err(HexAnswer::Memory),
        Err(_) => Err(HexAnswer::Digits),
    }
}
