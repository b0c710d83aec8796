// The law of power-on, as a call.
ghost use Rattle.rewind.specs.Forgetting.{ForgettingLaw};

/// Power-on forgets (this project's own). Of chips that heard bus steps, took key bytes and pulses and were powered, it makes what it
/// makes of them as they were at first, and the position of power-on is the same. So a run can be done again from its start. This call
/// does nothing; its contract is the law.
#[tactic(auto, using(crate::proofs::Laws::forgetting))]
pub fn forgetting_law()
    ensures { ForgettingLaw }
{}
