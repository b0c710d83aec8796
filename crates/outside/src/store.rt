// The trait of a store: where the program's files come from.
ghost use Rattle.std.specs.Prelude.{◌≤◌, length, IfOk};
ghost use Rattle.outside.specs.StoreRules.{Input, Fetches, IsFile, IsLong, WhereLong};

use std::alloc::Global;
use thiserror::Error;

/// Why a store gave no file.
#[derive(Debug, Drop, Error)]
pub enum FetchFault {
    /// The store failed, or has no such file.
    #[error("the file could not be read")]
    Failed,

    /// The file has more bytes than the limit.
    #[error("the file is too long")]
    TooLong,

    /// Memory was wanting.
    #[error("memory was wanting")]
    Memory,
}

/// Where files come from.
///
/// Contracts see a store by its `input`: its files, where it tells them, its count of faults, how many files it was asked for, and how many
/// bytes they may have had at most, all of them together. A store may stop telling in a call, and then tells nothing from there on.
pub trait Store {
    ghost input: { Self → Input };

    /// The bytes of a file, all of them and at most `limit`.
    ///
    /// `Failed` comes only where the count of faults rose in this call. Where files are told after the call, `TooLong` comes only where
    /// the file has more than `limit` bytes, and a name that isn't among them is answered neither by bytes nor by `TooLong`.
    fn fetch(&mut self, alloc: Global, name: &str, limit: u32) -> Result<Vec<u8>, FetchFault>
        ensures fetched { Fetches (input self.old) (input self.new) name.now limit result }
        ensures within { IfOk result (λ bytes. length bytes.items ≤ limit) }
        ensures file { IfOk result (λ bytes. IsFile (input self.new).files name.now bytes.items) }
        ensures long { WhereLong result (IsLong (input self.new).files name.now limit) };
}
