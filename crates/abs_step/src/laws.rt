// The laws of the checker's step.
ghost use Rattle.abs_step.specs.CartridgeAnalysis.{AnalysisLaw};
ghost use Rattle.abs_step.specs.WithoutVectors.{WithoutVectorsLaw};
ghost use Rattle.abs_step.specs.FitLaws.{FitLaw};
ghost use Rattle.abs_step.specs.MapView.{MapViewLaw};
ghost use Rattle.abs_step.specs.RackSeats.{SeatedViewLaw};
ghost use Rattle.abs_step.specs.ScriptRuns.{FreeRunLaw, ScriptRunLaw};
ghost use Rattle.abs_step.specs.ServedSteps.{ServedStepLaw};
ghost use Rattle.abs_step.specs.Soundness.{SoundnessLaw};
ghost use Rattle.abs_step.specs.SoundSteps.{SoundStepLaw};
ghost use Rattle.abs_step.specs.StepOrder.{StepOrderLaw};

/// The map of the chips of a description tells the checker what is so of them: sorts, bytes that stay, holders by kind, ports, and of
/// the chips that can interrupt the vectors that no port writes, and whether some has one that ports write (this project's own). This call does nothing; its contract is the law.
#[tactic(auto, using(crate::proofs::MapViews::map_view))]
pub fn map_view_law()
    ensures { MapViewLaw }
{}

/// What the map of a description tells is as true of a rack in which its chips sit: in another order, and with blank chips between. Nor does
/// it matter whether a chip has a patch (this project's own). This call does nothing; its contract is the law.
#[tactic(auto, using(crate::proofs::SeatedViews::seated_views))]
pub fn seated_view_law()
    ensures { SeatedViewLaw }
{}

/// Where an invariant map is closed and safe, no run meets a reserved opcode, or has a bus step that isn't served, but for reads at D0 that
/// no chip answers; and where it is free of faults as well, none at all. A run begins with any accumulator, scratchpad, ISAR, RAM and
/// counters of chips, takes any key bytes and pulses, and follows each interrupt (this project's own). This call does nothing; its contract
/// is the law.
#[tactic(auto, using(crate::proofs::SoundRuns::soundness))]
pub fn soundness_law()
    ensures { SoundnessLaw }
{}

/// One step of the checker is right of one instruction of a run: the start stands for each position in which a run may begin; and from a safe
/// state that stands for a position, some state that holds next stands for the position after the instruction, its interrupt and any events
/// (this project's own). This call does nothing; its contract is the law.
#[tactic(auto, using(crate::proofs::Runs::sound_steps))]
pub fn sound_step_law()
    ensures { SoundStepLaw }
{}

/// What a safe state says that stands for a position: the next opcode isn't reserved; where a run begins reset is served; and where a safe
/// state stands for the position after the instruction too, each bus access of the instruction, and of an interrupt at its end, is served but
/// for reads at D0 that no chip answers; and where the first state is free of faults besides, each is (this project's own). This call does
/// nothing; its contract is the law.
#[tactic(auto, using(crate::proofs::OneInstruction::served_steps))]
pub fn served_step_law()
    ensures { ServedStepLaw }
{}

/// What an analysis shows to be safe that follows no vector, and refuses every chip that can interrupt where an interrupt may be taken, is
/// shown to be safe, and leads to the same points, where vectors are followed; and no interrupt is taken there (this project's own). This
/// call does nothing; its contract is the law.
#[tactic(auto, using(crate::proofs::VectorsKept::without_vectors_kept))]
pub fn without_vectors_law()
    ensures { WithoutVectorsLaw }
{}

/// What is shown of every run with free inputs on some chips holds of a run by a script on them. Where reset is served and each instruction
/// goes on but for reads at D0 that no chip answers, the run is done, or it stops at such a read; and where each instruction is served, it is
/// done (this project's own). This call does nothing; its contract is the law.
#[tactic(auto, using(crate::proofs::ScriptEnds::free_runs))]
pub fn free_run_law()
    ensures { FreeRunLaw }
{}

/// Over a closed and safe invariant map of the chips a run by a script is done, or it stops at a read at D0 that no chip answers; and where
/// the map is free of faults as well, it is done (this project's own). This call does nothing; its contract is the law.
#[tactic(auto, using(crate::proofs::ScriptEnds::script_runs))]
pub fn script_run_law()
    ensures { ScriptRunLaw }
{}

/// A step keeps the order of states. Of two states at one point, where the one that says less is safe, the one that says more is; where it
/// is free of faults, the other is; and each successor of the one that says more has a successor of the other at its point that says no
/// more (this project's own). This call does nothing; its contract is the law.
#[tactic(auto, using(crate::proofs::SuccessorOrder::step_order))]
pub fn step_order_law()
    ensures { StepOrderLaw }
{}

/// Points and states fit each other at the start, where two states at one point are joined, and in all that holds next after an
/// instruction: the point has what the state knows of the tracked registers (this project's own). This call does nothing; its contract is
/// the law.
#[tactic(auto, using(crate::proofs::TrackedFits::fits))]
pub fn fit_law()
    ensures { FitLaw }
{}

/// The analysis of a cartridge meets all that a search of it stands on: points are in a total order; states are in order, with a least upper
/// bound of two at a point, and no state rises more than 79 times; a step keeps their order; and states that fit their points lead to such.
/// And the bytes that a map of bytes tells are bytes (this project's own). This call does nothing; its contract is the law.
#[tactic(auto, using(crate::proofs::CartridgeMaps::analysis_law))]
pub fn analysis_law()
    ensures { AnalysisLaw }
{}
