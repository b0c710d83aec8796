// The store over the system's files.
ghost use Rattle.std.specs.Prelude.{◌≡◌, ◌≤◌, ◌<◌, length, Err, IfOk, MatchResult};
ghost use Rattle.outside.specs.Reading.{PieceRead, AllRead, ReadPast, ReadWithoutRoom, WhereWanting, GaveAll, GaveMore};
ghost use Rattle.outside.specs.Reading.{GaveWithoutRoom};
ghost use Rattle.outside.specs.StoreRules.{CountsFault, WhereLong};

use super::counted_reader::CountedReader;
use super::store::{FetchFault, Store};
use std::alloc::Global;
use std::io::Read;
use std::rt::Files;
use std::{fs, io};

/// How many bytes are read at once.
const PIECE: usize = 4096;

/// Appends one piece of at most `most` bytes, and says how many it has: none at the end. Nothing is appended at a fault.
fn read_piece<F: Read + Drop>(
    file: &mut CountedReader<F>,
    bytes: &mut Vec<u8>,
    most: usize,
) -> Result<usize, FetchFault>
    requires { 0 < most }
    ensures read { IfOk result (λ count. PieceRead (F.remaining file.old.reader)
        (F.remaining file.new.reader) bytes.old.items bytes.new.items count) }
    ensures within { IfOk result (λ count. count ≤ most) }
    ensures cause { CountsFault file.old.failures file.new.failures result }
    ensures long { WhereLong result ⊥ }
    ensures wanting { WhereWanting result
        (ReadWithoutRoom (F.remaining file.old.reader) (F.remaining file.new.reader)) }
{
    let mut piece = [0; PIECE];
    let room = &mut piece[..most.min(PIECE)];
    let taken = file.read(room)?;
    if taken == 0 {
        return Ok(0);
    }
    match bytes.extend_from_slice(&room[..taken]) {
        Ok(()) => Ok(taken),
        Err(_) => Err(FetchFault::Memory),
    }
}

/// The bytes that a reader has up to its end, where they are at most `limit`. Not more than one byte past the limit is read.
///
/// `Failed` comes only where the reader failed, `TooLong` only where it had more than `limit` bytes, and `Memory` only where it gave bytes
/// for which there is no room.
#[tactic(auto, using(crate::proofs::Reading::reads_none, crate::proofs::Reading::reads_more, crate::proofs::Reading::reads_without_room))]
fn read_whole<F: Read + Drop>(
    alloc: Global,
    file: &mut CountedReader<F>,
    limit: u32,
) -> Result<Vec<u8>, FetchFault>
    ensures within { IfOk result (λ bytes. length bytes.items ≤ limit) }
    ensures all { IfOk result (λ bytes. AllRead (F.remaining file.old.reader)
        (F.remaining file.new.reader) bytes.items) }
    ensures cause { CountsFault file.old.failures file.new.failures result }
    ensures long { WhereLong result (ReadPast (F.remaining file.old.reader)
        (F.remaining file.new.reader) limit) }
    ensures wanting { WhereWanting result
        (ReadWithoutRoom (F.remaining file.old.reader) (F.remaining file.new.reader)) }
{
    let limit = limit as usize;
    let mut bytes = Vec::new(alloc);
    while bytes.len() <= limit {
        let most = limit - bytes.len() + 1;
        if read_piece(file, &mut bytes, most)? == 0 {
            return Ok(bytes);
        }
    }
    Err(FetchFault::TooLong)
}

/// The bytes of a file that the system opened, up to its end, where they are at most `limit`. `Failed` comes where it couldn't be opened or
/// read, `TooLong` only where it had more than `limit` bytes, and `Memory` only where it gave bytes for which there is no room.
fn read_opened<F: Read + Drop>(
    alloc: Global,
    opened: io::Result<F>,
    limit: u32,
) -> Result<Vec<u8>, FetchFault>
    ensures within { IfOk result (λ bytes. length bytes.items ≤ limit) }
    ensures all { MatchResult opened
        (λ file. IfOk result (λ bytes. GaveAll (F.remaining file) bytes.items))
        (λ _. result ≡ Err FetchFault.Failed) }
    ensures long { MatchResult opened
        (λ file. WhereLong result (GaveMore (F.remaining file) limit))
        (λ _. result ≡ Err FetchFault.Failed) }
    ensures wanting { MatchResult opened
        (λ file. WhereWanting result (GaveWithoutRoom (F.remaining file)))
        (λ _. result ≡ Err FetchFault.Failed) }
{
    match opened {
        Ok(file) => read_whole(alloc, &mut CountedReader::new(file), limit),
        Err(_) => Err(FetchFault::Failed),
    }
}

/// A store over the system's files, whose names are paths. It tells nothing of what they hold.
#[derive(Drop)]
pub struct FileStore<R: Files + Drop> {
    system: R,
    fetches: u64,
    allowed: u64,
    faults: u64,
}

impl<R: Files + Drop> FileStore<R> {
    /// A store that was asked for nothing and has met no fault.
    pub fn new(system: R) -> Self
        ensures { (result.fetches ≡ 0) × (result.allowed ≡ 0) × (result.faults ≡ 0) }
    {
        FileStore {
            system,
            fetches: 0,
            allowed: 0,
            faults: 0,
        }
    }

    fn read(&self, alloc: Global, name: &str, limit: u32) -> Result<Vec<u8>, FetchFault>
        ensures within { IfOk result (λ bytes. length bytes.items ≤ limit) }
    {
        read_opened(alloc, fs::open(&self.system, name), limit)
    }
}

impl<R: Files + Drop> Store for FileStore<R> {
    ghost use Rattle.std.specs.Prelude.{None};

    ghost input = { λ s. record {
      files = None;
      faults = s.faults;
      asked = record { fetches = s.fetches; allowed = s.allowed };
    } };

    fn fetch(&mut self, alloc: Global, name: &str, limit: u32) -> Result<Vec<u8>, FetchFault> {
        self.fetches = self.fetches.saturating_add(1);
        self.allowed = self.allowed.saturating_add(u64::from(limit));
        let outcome = self.read(alloc, name, limit);
        if let Err(FetchFault::Failed) = &outcome {
            self.faults = self.faults.saturating_add(1);
        }
        outcome
    }
}
