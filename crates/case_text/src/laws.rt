// The law of the texts that are written.
ghost use Rattle.case_text.specs.WrittenLaws.{WrittenLaw};

/// The text of some entries in form is read as a list of these, in its order, and of no others (this project's own). This call does
/// nothing; its contract is the law.
#[tactic(auto, using(crate::proofs::WrittenAgain::written_law))]
pub fn written_law()
    ensures { WrittenLaw }
{}
