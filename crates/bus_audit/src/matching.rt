// Whether the bus steps of an outcome are what stands next in a trace.
ghost use Rattle.std.specs.Prelude.{◌≡◌, ◌≤◌, ◌++◌, Some, length};
ghost use Rattle.console_spec.specs.Telling.{code_of as told_code};
ghost use Rattle.f8_machine.specs.Faults.{fault_of};
ghost use Rattle.f8_machine.specs.HeardSteps.{step_of};
ghost use Rattle.f8_machine.specs.MachineState.{steps_in};
ghost use Rattle.bus_audit.specs.Answers.{steps_of};
ghost use Rattle.bus_audit.specs.PlainSteps.{plain, plain_fault, same_step};
ghost use Rattle.bus_audit.specs.Turns.{heard_told, judged, outcome_told, stand_next as are_next, told_by};

use super::step::{TraceStep, TraceWhat};
use super::trace::ToldLine;
use data_bus::BusFault;
use f8_machine::{Heard, MOST_HEARD, Outcome};
use romc_table::Romc;

/// What becomes of reset or of an instruction by the steps that stand next in a trace.
#[derive(Clone, Copy, Debug, PartialEq, Eq)]
pub(crate) enum Turn {
    /// It is done, and its steps are what stands next, so many of them.
    Onward { told: usize },
    /// The run is over there, with so many steps that still count.
    Over { told: usize },
}

/// A served step is what a trace tells.
fn is_told(step: &Heard, told: &TraceStep) -> bool
    ensures { result ≡ same_step (plain (step_of step.now)) told.now }
{
    *told
        == TraceStep {
            romc: step.romc,
            long: step.long,
            what: TraceWhat::Byte {
                byte: step.byte,
                who: step.who,
            },
        }
}

/// Some served steps are what stands next.
pub(crate) fn stand_next(served: &[Heard], rest: &[ToldLine]) -> bool
    ensures { result ≡ are_next (heard_told served.now) (steps_of rest.now) }
{
    if rest.len() < served.len() {
        return false;
    }
    for (at, step) in served.iter().enumerate() {
        if !is_told(step, &rest[at].step) {
            return false;
        }
    }
    true
}

/// The code of a bus step that isn't served.
fn code_of(fault: &BusFault) -> Romc
    ensures { result ≡ told_code (fault_of fault.now) }
{
    match fault {
        BusFault::Conflict { romc, .. }
        | BusFault::Undriven { romc, .. }
        | BusFault::Astray { romc, .. } => *romc,
    }
}

/// A step that isn't served is what stands next.
fn fault_is_next(fault: &BusFault, long: bool, rest: &[ToldLine]) -> bool
    ensures { result ≡ are_next (plain_fault (Some (fault_of fault.now, long)))
        (steps_of rest.now) }
{
    let [next, ..] = rest else {
        return false;
    };
    next.step
        == TraceStep {
            romc: code_of(fault),
            long,
            what: TraceWhat::Fault,
        }
}

/// Some served steps, and behind them one that isn't served, are what stands next.
fn cut_is_next(served: &[Heard], fault: &BusFault, long: bool, rest: &[ToldLine]) -> bool
    ensures { result ≡ are_next
        (heard_told served.now ++ plain_fault (Some (fault_of fault.now, long)))
        (steps_of rest.now) }
{
    if !stand_next(served, rest) {
        return false;
    }
    fault_is_next(fault, long, &rest[served.len()..])
}

/// What becomes of reset or of an instruction, by its outcome.
pub(crate) fn judge(outcome: &Outcome, rest: &[ToldLine]) -> Turn
    ensures turn { result
        ≡ judged outcome.now (are_next (outcome_told outcome.now) (steps_of rest.now)) }
    ensures within { told_by result ≤ length rest.now }
    ensures few { length (steps_in outcome.now) ≤ MOST_HEARD }
{
    match outcome {
        Outcome::Done { steps, .. } => {
            if stand_next(steps.as_slice(), rest) {
                return Turn::Onward { told: steps.len() };
            }
        }
        Outcome::Fault { fault, long, steps } => {
            if cut_is_next(steps.as_slice(), fault, *long, rest) {
                return Turn::Over {
                    told: steps.len() + 1,
                };
            }
        }
        Outcome::Reserved { .. } => {}
    }
    Turn::Over { told: 0 }
}
