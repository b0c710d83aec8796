// The law of the definitions, as a call.
ghost use Rattle.bus_audit.specs.Determinacy.{DeterminacyLaw};

/// A trace determines the run that it can come from, but for key bytes that weren't read and pulses that weren't taken.
/// A free run whose record stands first in the trace is where the dictated run is, at each of its instructions. And the
/// dictated run does so many instructions and leaves nothing of a trace that has a step just where that is the whole
/// record of some free run of so many instructions (this project's own). This call does nothing; its contract is the law.
#[tactic(auto, using(crate::proofs::Laws::determinacy))]
pub fn determinacy_law()
    ensures { DeterminacyLaw }
{}
