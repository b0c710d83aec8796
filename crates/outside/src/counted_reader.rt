// A reader that counts its failures, and errors of the system as failed fetches.
ghost use Rattle.std.specs.Prelude.{◌≡◌, ◌≤◌, length, IfOk, Ok, Err, MatchResult};
ghost use Rattle.std.specs.Io.KnownBytes.{ReadConsumes};
ghost use Rattle.outside.specs.Counts.{Rose};

use super::store::FetchFault;
use std::io;
use std::io::Read;

/// What the system gave. Any error of it is a failed fetch, and none is want of memory.
fn or_failed<T>(outcome: io::Result<T>) -> Result<T, FetchFault>
    ensures { MatchResult outcome (λ given. result ≡ Ok given)
        (λ _. result ≡ Err FetchFault.Failed) }
{
    match outcome {
        Ok(given) => Ok(given),
        Err(_) => Err(FetchFault::Failed),
    }
}

/// A reader that counts its failures. Nothing but a failed read raises the count.
#[derive(Drop)]
pub struct CountedReader<R: Read + Drop> {
    reader: R,
    failures: u64,
}

impl<R: Read + Drop> CountedReader<R> {
    /// A reader that hasn't failed yet.
    pub fn new(reader: R) -> Self
        ensures { (result.failures ≡ 0) × (result.reader ≡ reader) }
    {
        CountedReader {
            reader,
            failures: 0,
        }
    }

    /// Reads into the room, and says how many bytes: none at the end only, or without room. A failed read gives none, and is the reader's.
    pub fn read(&mut self, room: &mut [u8]) -> Result<usize, FetchFault>
        ensures bytes { ReadConsumes (R.remaining self.old.reader)
            (R.remaining self.new.reader) result room.new }
        ensures within { IfOk result (λ count. count ≤ length room.new) }
        ensures cause { MatchResult result (λ _. self.new.failures ≡ self.old.failures)
            (λ fault. (fault ≡ FetchFault.Failed) × Rose self.old.failures self.new.failures) }
    {
        let outcome = or_failed(self.reader.read(room));
        if outcome.is_err() {
            self.failures = self.failures.saturating_add(1);
        }
        outcome
    }
}
