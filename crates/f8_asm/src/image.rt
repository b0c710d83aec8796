// The image of a text.
ghost use Rattle.std.specs.Prelude.{◌≡◌, ◌≤◌, length, IfOk};
ghost use Rattle.text_lines.specs.ReadErrors.{Says};
ghost use Rattle.f8_asm.specs.Image.{image_of, LiesIn, Ascends};
ghost use Rattle.f8_asm.specs.FirstFault.{TellsFault};
ghost use Rattle.f8_asm.specs.ImageLaw.{IsImage};

use crate::answers::{AsmAnswer, Room};
use crate::pass_one::parse_lines;
use crate::pass_three::emit_lines;
use crate::pass_two::place_lines;
use crate::symbols::Symbols;
use std::alloc::Global;
use std::marker::Model;

/// The image of a text: bytes with their addresses, ascending, and names with their values. A contract sees both
/// lists.
#[derive(Drop)]
pub struct Image {
    bytes: Vec<(u16, u8)>,
    symbols: Symbols<i64>,
}

impl Model for Image {
    ghost use Rattle.std.specs.Prelude.{◌≤◌, length};
    ghost use Rattle.f8_asm.specs.Image.{Picture};

    ghost Value = { Picture };

    ghost view = { λ i. record { bytes = i.bytes.items; symbols = i.symbols } };

    ghost invariant = { λ i. length i.symbols ≤ 16777216 };
}

impl Image {
    ghost use Rattle.std.specs.Prelude.{◌≡◌, slice_get, length, IfSome, IsTrue};
    ghost use Rattle.asm_text.specs.Bytes.{is_name};
    ghost use Rattle.f8_asm.specs.Names.{symbol_seen};

    /// The addresses that hold a byte, ascending, each with its byte.
    pub fn bytes(&self) -> &[(u16, u8)]
        ensures { result.now ≡ self.now.bytes }
    {
        self.bytes.as_slice()
    }

    /// The symbols, in the order in which they were defined.
    pub fn symbols(&self) -> &Symbols<i64>
        ensures { result.now ≡ self.now.symbols }
    {
        &self.symbols
    }

    /// How many symbols there are.
    pub fn symbol_count(&self) -> u32
        ensures { result ≡ length self.now.symbols }
    {
        self.symbols.len() as u32
    }

    /// The name and the value of a symbol, counted from 0 in the order in which they were defined, and `None` from
    /// their number on. A name is a letter or `_`, and then letters, digits and `_`, at most 32 bytes.
    pub fn symbol(&self, k: u32) -> Option<(&str, i64)>
        ensures entry { symbol_seen result ≡ slice_get self.now.symbols k }
        ensures name { IfSome result (λ s. IsTrue (is_name s.0.now)) }
    {
        self.symbols.get(k as usize)
    }
}

/// The image of a text, with its bytes in the room.
///
/// # Errors
///
/// `Fault`: the first fault of the text, in text order within the earliest of three passes (docs/ASSEMBLY.md).
/// `Memory`: memory is missing.
pub fn assemble(alloc: Global, text: &[u8], room: Room) -> Result<Image, AsmAnswer>
    requires { length text.now ≤ 16777216 }
    ensures value { Says result (image_of text.now room) }
    ensures ascent { IfOk result (λ image. Ascends image.bytes) }
    ensures room { IfOk result (λ image. LiesIn room image.bytes) }
    ensures law { IfOk result (λ image. IsImage text.now image) }
    ensures fault { TellsFault result text.now room }
{
    let parsing = parse_lines(alloc, text)?;
    let layout = place_lines(alloc, room, parsing.into_lines())?;
    let table = emit_lines(alloc, &layout)?;
    let bytes = table.ascending(alloc)?;
    let symbols = layout.into_symbols();
    Ok(Image { bytes, symbols })
}
