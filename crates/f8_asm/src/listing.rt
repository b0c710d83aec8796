// The disassembler.
ghost use Rattle.std.specs.Prelude.{◌≡◌, ◌≤◌, ◌+◌, ◌*◌, length, IfOk, Ok};
ghost use Rattle.f8_asm.specs.Image.{image_of, everywhere, picture_of};
ghost use Rattle.f8_asm.specs.Listing.{listing};
ghost use Rattle.f8_asm.specs.ListingLaw.{IsListingText};

use crate::pieces::next_piece;
use crate::spelling::push_entry;
use f8_spec::Memory;
use std::alloc::{AllocError, Global};
use std::marker::Model;

/// A text in ASCII. A contract sees the list of its bytes.
#[derive(Drop)]
pub struct Text {
    bytes: Vec<u8>,
}

impl Model for Text {
    ghost use Rattle.std.specs.Prelude.{ℕ, List};

    ghost Value = { List ℕ };

    ghost view = { λ t. t.bytes.items };
}

impl Text {
    /// The text of a vector's bytes, which is kept as it is.
    pub fn from_vec(bytes: Vec<u8>) -> Text
        ensures { result ≡ bytes.items }
    {
        Text { bytes }
    }

    /// The text's bytes.
    pub fn as_bytes(&self) -> &[u8]
        ensures { result.now ≡ self.now }
    {
        self.bytes.as_slice()
    }
}

/// The statements of bytes, behind an ORG.
#[tactic(auto, unfolding(crate::specs::Listing::listing))]
fn list(alloc: Global, bytes: &[u8]) -> Result<Vec<u8>, AllocError>
    requires { length bytes.now ≤ 65536 }
    ensures { IfOk result (λ text. text.items ≡ listing bytes.now) }
{
    let mut text = Vec::from_slice(alloc, b"ORG $0000\n")?;
    let mut rest = bytes;
    let mut address = 0u32;
    let mut raw = 0usize;
    while let Some((byte, behind)) = rest.split_first() {
        let piece = next_piece(raw, address, *byte, behind);
        push_entry(&mut text, piece.entry)?;
        rest = &rest[piece.length..];
        raw = piece.raw;
        address += piece.length as u32;
    }
    Ok(text)
}

/// The text of bytes from address 0000 on: `ORG $0000`, and then one statement a line without aliases. What is no
/// instruction, or leads out of the addresses, is listed byte by byte. In the room of all addresses `assemble` makes these
/// bytes of the text again. The text has at most 8 bytes for each of them, and 10 for its first line.
///
/// # Errors
///
/// Memory is missing.
pub fn disassemble(alloc: Global, bytes: &[u8]) -> Result<Text, Memory>
    requires { length bytes.now ≤ 65536 }
    ensures text { IfOk result (λ text. text ≡ listing bytes.now) }
    ensures law { IfOk result (λ text. IsListingText bytes.now text) }
    ensures round_trip { IfOk result (λ text. image_of text everywhere
        ≡ Ok (picture_of bytes.now)) }
    ensures size { IfOk result (λ text. length text ≤ 8 * length bytes.now + 10) }
{
    match list(alloc, bytes) {
        Ok(bytes) => Ok(Text { bytes }),
        Err(_) => Err(Memory),
    }
}
