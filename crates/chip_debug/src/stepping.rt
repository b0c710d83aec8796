// The law of stepping back, as a call.
ghost use Rattle.chip_debug.specs.SteppingLaw.{SteppingBackLaw};

/// A session that stepped back is one that never went further (this project's own): a fresh session on the same chips, given the power-on,
/// the key bytes, the pulses and the instructions that stay, and the breaks, is at the same scene, so that each later command tells the
/// same. This call does nothing; its contract is the law.
#[tactic(auto, using(crate::proofs::SteppingLaws::stepping_back))]
pub fn stepping_law()
    ensures { SteppingBackLaw }
{}
