// The picture of some modules.
ghost use Rattle.std.specs.Prelude.{◌≡◌};

use f8_asm::Symbols;
use std::marker::Model;

/// Modules linked: bytes with their addresses, ascending, and the exported names with their values, in the order in
/// which the modules export them. A contract sees both lists.
#[derive(Drop)]
pub struct Linked {
    bytes: Vec<(u16, u8)>,
    symbols: Symbols<i64>,
}

impl Model for Linked {
    ghost use Rattle.f8_asm.specs.Image.{Picture};

    ghost Value = { Picture };

    ghost view = { λ l. record { bytes = l.bytes.items; symbols = l.symbols } };
}

impl Linked {
    ghost use Rattle.std.specs.Prelude.{◌≡◌};

    /// The picture of these bytes and names.
    pub fn of(bytes: Vec<(u16, u8)>, symbols: Symbols<i64>) -> Linked
        ensures { result ≡ record { bytes = bytes.items; symbols = symbols } }
    {
        Linked { bytes, symbols }
    }

    /// The addresses that hold a byte, ascending, each with its byte.
    pub fn bytes(&self) -> &[(u16, u8)]
        ensures { result.now ≡ self.now.bytes }
    {
        self.bytes.as_slice()
    }

    /// The exported names with their values.
    pub fn symbols(&self) -> &Symbols<i64>
        ensures { result.now ≡ self.now.symbols }
    {
        &self.symbols
    }
}
