// The byte of each address.
ghost use Rattle.std.specs.Prelude.{◌≡◌, ◌<◌, ◌≤◌, ◌+◌, ◌^◌, length, IfOk};
ghost use Rattle.f8_asm.specs.PassThree.{no_bytes, table_with};
ghost use Rattle.f8_asm.specs.Image.{ascending};

use std::alloc::{AllocError, Global};
use std::marker::Model;

/// How many addresses there are.
const ADDRESSES: usize = 65_536;

/// No address has a byte.
fn no_bytes(alloc: Global) -> Result<Vec<Option<u8>>, AllocError>
    ensures value { IfOk result (λ table. table.items ≡ no_bytes 65536) }
    ensures length { IfOk result (λ table. length table.items ≡ 65536) }
{
    let mut table = Vec::with_capacity(alloc, ADDRESSES)?;
    for _count in 0..ADDRESSES {
        table.push(None)?;
    }
    Ok(table)
}

/// Puts bytes one after the other from an address on, as far as there are addresses.
fn write(table: &mut [Option<u8>], at: usize, bytes: &[u8])
    requires { at < 2 ^ 32 }
    ensures { table.new ≡ table_with table.old at bytes.now }
{
    for (k, byte) in bytes.iter().enumerate() {
        if at + k < table.len() {
            table[at + k] = Some(*byte);
        }
    }
}

/// The bytes of a table with their addresses.
fn ascending(alloc: Global, table: &[Option<u8>]) -> Result<Vec<(u16, u8)>, AllocError>
    requires { length table.now ≤ 65536 }
    ensures { IfOk result (λ bytes. bytes.items ≡ ascending 0 table.now) }
{
    let mut bytes = Vec::new(alloc);
    for (address, slot) in table.iter().enumerate() {
        match slot {
            Some(byte) => bytes.push((address as u16, *byte))?,
            None => {}
        }
    }
    Ok(bytes)
}

/// The byte of each address. A contract sees a list of 65,536, with nothing where no byte lies.
#[derive(Drop)]
pub struct Table {
    bytes: Vec<Option<u8>>,
}

impl Model for Table {
    ghost use Rattle.std.specs.Prelude.{◌≡◌, ℕ, List, Option, length};

    ghost Value = { List (Option ℕ) };

    ghost view = { λ t. t.bytes.items };

    ghost invariant = { λ t. length t.bytes.items ≡ 65536 };
}

impl Table {
    /// No byte.
    pub fn new(alloc: Global) -> Result<Table, AllocError>
        ensures { IfOk result (λ t. t ≡ no_bytes 65536) }
    {
        let bytes = no_bytes(alloc)?;
        Ok(Table { bytes })
    }

    /// Puts bytes one after the other from an address on, as far as there are addresses.
    pub fn write(&mut self, address: u32, bytes: &[u8])
        ensures { self.new ≡ table_with self.old address bytes.now }
    {
        write(self.bytes.as_mut_slice(), address as usize, bytes);
    }

    /// The bytes with their addresses.
    pub fn ascending(&self, alloc: Global) -> Result<Vec<(u16, u8)>, AllocError>
        ensures { IfOk result (λ bytes. bytes.items ≡ ascending 0 self.now) }
    {
        ascending(alloc, self.bytes.as_slice())
    }
}
