// What is left of a module for linking.
ghost use Rattle.std.specs.Prelude.{◌≡◌};

use crate::values::{Base, Named};
use asm_text::Name;
use std::marker::Model;

/// What linking makes of a value.
#[derive(Clone, Copy, Debug, PartialEq, Eq)]
pub enum FixupKind {
    /// Two bytes, high byte first: 0 to 65,535.
    Word,
    /// A byte: -128 to 255.
    Byte,
    /// The low byte of a value that isn't negative.
    Low,
    /// The second byte of a value that isn't negative, from below.
    High,
    /// How far the value lies from the byte itself: -128 to 127.
    Branch,
}

/// Bytes that linking puts.
#[derive(Clone, Copy, Debug, PartialEq, Eq)]
pub struct Fixup {
    /// Where its first byte stands, counted from the module's first.
    pub offset: u32,
    pub kind: FixupKind,
    /// What the value is counted from. It is `None` for a branch to a constant alone.
    pub base: Option<Base>,
    /// How far the value lies from the base; without one, the value.
    pub k: i64,
}

/// A module as linking takes it: its bytes from offset 0, its exports and its imports in the order of its text, and what
/// linking puts, by ascending offset. A contract sees these four lists.
#[derive(Drop)]
pub struct Object {
    bytes: Vec<u8>,
    exports: Vec<(Name, Named)>,
    imports: Vec<Name>,
    fixups: Vec<Fixup>,
}

impl Model for Object {
    ghost use Rattle.f8_link.specs.Objects.{Object};

    ghost Value = { Object };

    ghost view = { λ o. record {
      bytes = o.bytes.items;
      exports = o.exports.items;
      imports = o.imports.items;
      fixups = o.fixups.items;
    } };
}

impl Object {
    ghost use Rattle.std.specs.Prelude.{◌≡◌};

    /// The object of these parts.
    pub fn of(
        bytes: Vec<u8>,
        exports: Vec<(Name, Named)>,
        imports: Vec<Name>,
        fixups: Vec<Fixup>,
    ) -> Object
        ensures { result ≡ record {
          bytes = bytes.items;
          exports = exports.items;
          imports = imports.items;
          fixups = fixups.items;
        } }
    {
        Object {
            bytes,
            exports,
            imports,
            fixups,
        }
    }

    /// The bytes from offset 0, with 00 where linking puts one.
    pub fn bytes(&self) -> &[u8]
        ensures { result.now ≡ self.now.bytes }
    {
        self.bytes.as_slice()
    }

    /// The exported names with what they stand for.
    pub fn exports(&self) -> &[(Name, Named)]
        ensures { result.now ≡ self.now.exports }
    {
        self.exports.as_slice()
    }

    /// The imported names.
    pub fn imports(&self) -> &[Name]
        ensures { result.now ≡ self.now.imports }
    {
        self.imports.as_slice()
    }

    /// What linking puts.
    pub fn fixups(&self) -> &[Fixup]
        ensures { result.now ≡ self.now.fixups }
    {
        self.fixups.as_slice()
    }
}
