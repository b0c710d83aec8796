// The law of the entries of what is known at points.
ghost use Rattle.noted_cases.specs.NotedLaws.{NotedLaw};

/// The entries of the least map that is closed and safe are a list that is closed and safe; and where the map's states are free of faults,
/// so are the list's cases (this project's own). This call does nothing; its contract is the law.
#[tactic(auto, using(crate::proofs::NotedLists::noted_law))]
pub fn noted_law()
    ensures { NotedLaw }
{}
