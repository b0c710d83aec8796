// The sink over a writer of the system.
ghost use Rattle.std.specs.Prelude.{◌≡◌, OnOk, OnErr};
ghost use Rattle.std.specs.Io.KnownBytes.{Appends};
ghost use Rattle.outside.specs.SinkRules.{untold_output, Adds, AddsPart};
ghost use Rattle.outside.specs.Writing.{AppendsPart};

use super::counted_writer::CountedWriter;
use super::sink::{Sink, SinkFault};
use std::io::Write;

/// Gives a writer a piece, whole, in as many writes as it takes. Where one of them fails, it has a first part of it.
#[tactic(auto, using(crate::proofs::SinkLaws::untold_failed))]
fn put_whole<W: Write + Drop>(out: &mut CountedWriter<W>, piece: &[u8]) -> Result<(), SinkFault>
    ensures ok { OnOk result
        (Adds (untold_output out.old.failures) (untold_output out.new.failures) piece.now) }
    ensures err { OnErr result
        (AddsPart (untold_output out.old.failures) (untold_output out.new.failures) piece.now) }
    ensures whole { OnOk result
        (Appends (W.contents out.old.writer) (W.contents out.new.writer) piece.now) }
    ensures part { OnErr result
        (AppendsPart (W.contents out.old.writer) (W.contents out.new.writer) piece.now) }
{
    let mut rest = piece;
    while !rest.is_empty() {
        let taken = out.write(rest)?;
        rest = rest.split_at(taken).1;
    }
    Ok(())
}

/// A sink over a writer, such as standard output. It tells nothing of what was written, and isn't buffered. A fault is counted only where
/// the writer failed.
#[derive(Drop)]
pub struct OutSink<W: Write + Drop> {
    out: CountedWriter<W>,
}

impl<W: Write + Drop> OutSink<W> {
    /// A sink that has met no fault.
    pub fn new(out: W) -> Self
        ensures { (result.out.failures ≡ 0) × (result.out.writer ≡ out) }
    {
        OutSink {
            out: CountedWriter::new(out),
        }
    }
}

impl<W: Write + Drop> Sink for OutSink<W> {
    ghost output = { λ s. untold_output s.out.failures };

    fn put(&mut self, piece: &[u8]) -> Result<(), SinkFault>
        ensures ok { OnOk result (Adds (untold_output self.old.out.failures)
            (untold_output self.new.out.failures) piece.now) }
        ensures err { OnErr result (AddsPart (untold_output self.old.out.failures)
            (untold_output self.new.out.failures) piece.now) }
        ensures whole { OnOk result
            (Appends (W.contents self.old.out.writer) (W.contents self.new.out.writer) piece.now) }
        ensures part { OnErr result
            (AppendsPart (W.contents self.old.out.writer)
            (W.contents self.new.out.writer) piece.now) }
    {
        put_whole(&mut self.out, piece)
    }
}
