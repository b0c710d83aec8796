// Where lines go: the trait, and the fault that a put may have.
ghost use Rattle.std.specs.Prelude.{OnOk, OnErr};
ghost use Rattle.outside.specs.SinkRules.{Output, Adds, AddsPart};

use thiserror::Error;

/// A sink took no more than a part of what it was given.
#[derive(Debug, Drop, Error)]
#[error("the output could not be written")]
pub struct SinkFault;

/// Where lines go.
///
/// Contracts see what a sink was given, where it tells that, and its count of faults. Such an object may stop telling in a call.
pub trait Sink {
    ghost output: { Self → Output };

    /// Writes a piece at the end, whole. A fault comes only where the count of faults rose in this call, and then a first part of the
    /// piece was written.
    fn put(&mut self, piece: &[u8]) -> Result<(), SinkFault>
        ensures ok { OnOk result (Adds (output self.old) (output self.new) piece.now) }
        ensures err { OnErr result (AddsPart (output self.old) (output self.new) piece.now) };
}
