// The law of reading and printing, as a call.
ghost use Rattle.bus_audit.specs.PrintedTraces.{PrintedLaw};

/// Reading is the other way round of printing. A line tells of a step just where it is the line that a run prints of that, with a code, a
/// byte and a socket that there are (this project's own). This call does nothing; its contract is the law.
#[tactic(auto, using(crate::proofs::PrintedRuns::printed_law))]
pub fn printed_law()
    ensures { PrintedLaw }
{}
