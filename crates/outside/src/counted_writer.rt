// A writer that counts its failures.
ghost use Rattle.std.specs.Prelude.{◌≡◌, ◌≤◌, ◌<◌, true, length, is_err, IfOk, MatchResult};
ghost use Rattle.std.specs.Io.KnownBytes.{WriteAppends};
ghost use Rattle.outside.specs.Counts.{Rose};

use super::sink::SinkFault;
use std::io;
use std::io::Write;

/// How many bytes of a piece a writer took. It failed exactly where it answered an error, or took none.
fn taken_of(outcome: io::Result<usize>) -> Result<usize, SinkFault>
    ensures { MatchResult outcome
        (λ taken. MatchResult result (λ told. (told ≡ taken) × (0 < taken)) (λ _. taken ≡ 0))
        (λ _. is_err result ≡ true) }
{
    match outcome {
        Ok(0) | Err(_) => Err(SinkFault),
        Ok(taken) => Ok(taken),
    }
}

/// A writer that counts its failures: errors, and writes that take nothing. Nothing else raises the count.
#[derive(Drop)]
pub struct CountedWriter<W: Write + Drop> {
    writer: W,
    failures: u64,
}

impl<W: Write + Drop> CountedWriter<W> {
    /// A writer that hasn't failed yet.
    pub fn new(writer: W) -> Self
        ensures { (result.failures ≡ 0) × (result.writer ≡ writer) }
    {
        CountedWriter {
            writer,
            failures: 0,
        }
    }

    /// Gives the writer a piece, and says how many of its bytes it took, from the first on. A failed write took none.
    pub fn write(&mut self, piece: &[u8]) -> Result<usize, SinkFault>
        ensures bytes { WriteAppends (W.contents self.old.writer) (W.contents self.new.writer)
            result piece.now }
        ensures within { IfOk result (λ taken. (0 < taken) × (taken ≤ length piece.now)) }
        ensures cause { MatchResult result (λ _. self.new.failures ≡ self.old.failures)
            (λ _. Rose self.old.failures self.new.failures) }
        ensures later { self.old.failures ≤ self.new.failures }
    {
        let outcome = taken_of(self.writer.write(piece));
        if outcome.is_err() {
            self.failures = self.failures.saturating_add(1);
        }
        outcome
    }
}
