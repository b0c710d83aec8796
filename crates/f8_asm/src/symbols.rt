// Names with their values.
ghost use Rattle.std.specs.Prelude.{◌≡◌, [], OnOk, OnErr, slice_get, length, IfSome, IsTrue};
ghost use Rattle.asm_text.specs.Bytes.{is_name};
ghost use Rattle.f8_asm.specs.Names.{value_of, with_name, symbol_seen};

use asm_text::Name;
use indexmap::IndexMap;
use std::alloc::{AllocError, Global};
use std::marker::Model;

/// Names with what they stand for, in the order in which they were first given it. A contract sees that list.
#[derive(Drop)]
pub struct Symbols<V: Drop> {
    entries: IndexMap<String, V>,
}

impl<V: Drop> Model for Symbols<V> {
    ghost use Rattle.std.specs.Prelude.{ℕ, List, map, IsTrue};
    ghost use Rattle.std.specs.String.{string_bytes};
    ghost use Rattle.f8_asm.specs.Names.{are_names};

    ghost Value = { List (List ℕ × V) };

    ghost view = { λ s. map (λ e. (string_bytes e.0, e.1)) s.entries.entries };

    ghost invariant = { λ s. IsTrue (are_names (map (λ e. (string_bytes e.0, e.1)) s.entries.entries)) };
}

impl<V: Copy + Drop> Symbols<V> {
    /// No name.
    pub fn new(alloc: Global) -> Symbols<V>
        ensures { result ≡ [] }
    {
        Symbols {
            entries: IndexMap::new(alloc),
        }
    }

    /// The value of a name.
    #[tactic(auto, using(crate::proofs::NameLookup::looked_up))]
    pub fn value_of(&self, name: &Name) -> Option<V>
        ensures { result ≡ value_of self.now name.now }
    {
        self.entries.get(name.as_str()).copied()
    }

    /// Gives a name a value. The one error is want of memory, and nothing has changed then.
    #[tactic(auto, using(crate::proofs::NameLookup::inserted))]
    pub fn define(&mut self, alloc: Global, name: &Name, value: V) -> Result<(), AllocError>
        ensures named { OnOk result (self.new ≡ with_name self.old name.now value) }
        ensures same { OnErr result (self.new ≡ self.old) }
    {
        let key = String::from_str(alloc, name.as_str())?;
        self.entries.insert(key, value)?;
        Ok(())
    }

    /// How many entries there are.
    pub fn len(&self) -> usize
        ensures { result ≡ length self.now }
    {
        self.entries.len()
    }

    /// The name and the value of an entry, counted from 0.
    pub fn get(&self, k: usize) -> Option<(&str, V)>
        ensures entry { symbol_seen result ≡ slice_get self.now k }
        ensures name { IfSome result (λ s. IsTrue (is_name s.0.now)) }
    {
        let (name, value) = self.entries.get_index(k)?;
        Some((name.as_str(), *value))
    }
}
