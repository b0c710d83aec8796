// Laws of the definitions of a run, as calls.
ghost use Rattle.f8_spec.specs.Powers.{ArePowers};
ghost use Rattle.rack_run.specs.ChainLaw.{ChainLaw};
ghost use Rattle.rack_run.specs.EndLaw.{EndLaw};
ghost use Rattle.rack_run.specs.TraceLaw.{TraceLaw};

use chip_face::Powers;

/// A run ends as its script asks: where no fault and no reserved opcode stops it, all its frames have fallen, or all its instructions are
/// done. This call does nothing; its contract is the law.
pub fn end_law()
    ensures { EndLaw }
{}

/// What a trace tells agrees with how the run goes on: a bus step that isn't served stands in it just where the run stops by it, and the
/// steps of an instruction that is done, or of reset, take as many Φ as it takes. This call does nothing; its contract is the law.
pub fn trace_law()
    ensures { TraceLaw }
{}

/// The chain of a description names, in its order, the sockets in which its chips sit, where the rack has a socket for each of them (this
/// project's own). This call does nothing; its contract is the law.
#[tactic(auto, using(crate::proofs::Chains::chain_sits))]
pub fn chain_law()
    ensures { ChainLaw }
{}

/// What is said of the power-on of chips are bytes and addresses. This call changes nothing; its contract is the law.
pub fn powers_law(powers: &Powers)
    ensures { ArePowers powers.now }
{
    let _said = powers.as_slice();
}
