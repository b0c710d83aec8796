// The stores in memory: one that can fail, and one that never does.
ghost use Rattle.std.specs.Prelude.{◌≡◌, ◌≤◌, length, IfOk, false};
ghost use Rattle.outside.specs.Counts.{one_more};
ghost use Rattle.outside.specs.MemoryStores.{Gives, IsRefused, within_limit};
ghost use Rattle.outside.specs.MemoryStores.{kept_input, kept_answer, after_fetch};
ghost use Rattle.outside.specs.MemoryStores.{sure_input, sure_answer, after_sure_fetch};
ghost use Rattle.outside.specs.StoreRules.{Fetches, IsFile, IsLong, WhereLong};

use super::call_list::CallList;
use super::file_list::FileList;
use super::store::{FetchFault, Store};
use std::alloc::Global;
use std::marker::Model;

/// The bytes of a file where they are at most `limit`.
fn give(alloc: Global, bytes: &[u8], limit: u32) -> Result<Vec<u8>, FetchFault>
    ensures given { IfOk result (λ given. within_limit limit bytes.now ≡ Gives given.items) }
    ensures refused { IsRefused (within_limit limit bytes.now) result }
{
    if bytes.len() > limit as usize {
        return Err(FetchFault::TooLong);
    }
    match Vec::from_slice(alloc, bytes) {
        Ok(given) => Ok(given),
        Err(_) => Err(FetchFault::Memory),
    }
}

/// A store in memory that can fail: at the calls that are listed, and where a file is missing.
///
/// Contracts see its files, the calls that are to fail, the number of calls, the sum of their limits and the count of faults.
#[derive(Drop)]
pub struct MemStore {
    files: FileList,
    failing: CallList,
    calls: u64,
    allowed: u64,
    faults: u64,
}

impl Model for MemStore {
    ghost use Rattle.outside.specs.MemoryStores.{KeptFiles};

    ghost Value = { KeptFiles };

    ghost view = { λ s. record {
      files = s.files;
      failing = s.failing;
      calls = s.calls;
      allowed = s.allowed;
      faults = s.faults;
    } };
}

impl MemStore {
    /// A store with these files, which fails at these calls.
    pub fn new(files: FileList, failing: CallList) -> MemStore
        ensures { result ≡ record {
          files = files;
          failing = failing;
          calls = 0;
          allowed = 0;
          faults = 0;
        } }
    {
        MemStore {
            files,
            failing,
            calls: 0,
            allowed: 0,
            faults: 0,
        }
    }

    fn fail(&mut self) -> FetchFault
        ensures fault { result ≡ FetchFault.Failed }
        ensures later { self.old.faults ≤ self.new.faults }
        ensures after { self.new ≡ record self.old { faults = one_more self.old.faults } }
    {
        self.faults = self.faults.saturating_add(1);
        FetchFault::Failed
    }
}

impl Store for MemStore {
    ghost input = { λ s. kept_input s };

    fn fetch(&mut self, alloc: Global, name: &str, limit: u32) -> Result<Vec<u8>, FetchFault>
        ensures fetched { Fetches (kept_input self.old) (kept_input self.new) name.now limit
            result }
        ensures within { IfOk result (λ bytes. length bytes.items ≤ limit) }
        ensures file { IfOk result (λ bytes. IsFile
            (kept_input self.new).files name.now bytes.items) }
        ensures long { WhereLong result (IsLong (kept_input self.new).files name.now limit) }
        ensures given { IfOk result (λ bytes. kept_answer self.old name.now limit
            ≡ Gives bytes.items) }
        ensures refused { IsRefused (kept_answer self.old name.now limit) result }
        ensures after { self.new ≡ after_fetch self.old name.now limit }
    {
        self.calls = self.calls.saturating_add(1);
        self.allowed = self.allowed.saturating_add(u64::from(limit));
        if self.failing.has(self.calls) {
            return Err(self.fail());
        }
        match self.files.bytes_of(name) {
            Some(bytes) => give(alloc, bytes, limit),
            None => Err(self.fail()),
        }
    }
}

/// A store in memory that never fails. Where a file is missing it gives an empty one, and no longer tells its files.
///
/// Contracts see its files, whether it was asked for a missing one, the number of calls and the sum of their limits.
#[derive(Drop)]
pub struct SureStore {
    files: FileList,
    strayed: bool,
    calls: u64,
    allowed: u64,
}

impl Model for SureStore {
    ghost use Rattle.outside.specs.MemoryStores.{SureFiles};

    ghost Value = { SureFiles };

    ghost view = { λ s. record {
      files = s.files;
      strayed = s.strayed;
      calls = s.calls;
      allowed = s.allowed;
    } };
}

impl SureStore {
    /// A store with these files.
    pub fn new(files: FileList) -> SureStore
        ensures { result ≡ record { files = files; strayed = false; calls = 0; allowed = 0 } }
    {
        SureStore {
            files,
            strayed: false,
            calls: 0,
            allowed: 0,
        }
    }
}

impl Store for SureStore {
    ghost input = { λ s. sure_input s };

    fn fetch(&mut self, alloc: Global, name: &str, limit: u32) -> Result<Vec<u8>, FetchFault>
        ensures fetched { Fetches (sure_input self.old) (sure_input self.new) name.now limit
            result }
        ensures within { IfOk result (λ bytes. length bytes.items ≤ limit) }
        ensures file { IfOk result (λ bytes. IsFile
            (sure_input self.new).files name.now bytes.items) }
        ensures long { WhereLong result (IsLong (sure_input self.new).files name.now limit) }
        ensures given { IfOk result (λ bytes. sure_answer self.old name.now limit
            ≡ Gives bytes.items) }
        ensures refused { IsRefused (sure_answer self.old name.now limit) result }
        ensures after { self.new ≡ after_sure_fetch self.old name.now limit }
    {
        self.calls = self.calls.saturating_add(1);
        self.allowed = self.allowed.saturating_add(u64::from(limit));
        match self.files.bytes_of(name) {
            Some(bytes) => give(alloc, bytes, limit),
            None => {
                self.strayed = true;
                Ok(Vec::new(alloc))
            }
        }
    }
}
