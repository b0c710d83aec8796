// The laws of entries and of their cases.
ghost use Rattle.case_step.specs.CaseLaws.{CaseSoundnessLaw, EntryLaw, JudgedLaw};

/// What an entry stands for some case of it does; what a case leads to its result stands for; an entry that covers another one stands for
/// all that the other does; and the start stands for each position in which a run may begin (this project's own). This call does nothing;
/// its contract is the law.
#[tactic(auto, using(crate::proofs::EntryLaws::entry_laws))]
pub fn entry_law()
    ensures { EntryLaw }
{}

/// Where a list of entries is closed and safe, no run meets a reserved opcode, or has a bus step that isn't served, but for reads at D0 that
/// no chip answers; and where its cases are free of faults as well, none at all. A run begins with any accumulator, scratchpad, ISAR, RAM and
/// counters of chips, takes any key bytes and pulses, and follows each interrupt (this project's own). This call does nothing; its contract
/// is the law.
#[tactic(auto, using(crate::proofs::EntryLaws::cases_sound))]
pub fn case_soundness_law()
    ensures { CaseSoundnessLaw }
{}

/// A list is found whole just where it is closed, safe and free of faults, and agreed just where it is closed and safe alone (this project's
/// own). This call does nothing; its contract is the law.
#[tactic(auto, using(crate::proofs::JudgedLists::judged_lists))]
pub fn judged_law()
    ensures { JudgedLaw }
{}
