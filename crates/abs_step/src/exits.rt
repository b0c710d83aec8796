// Where an instruction may lead.
ghost use Rattle.std.specs.Prelude.{◌≡◌, Some};
ghost use Rattle.f8_spec.specs.Instructions.{row_of};
ghost use Rattle.abs_step.specs.KnownFlow.{exit_to, branch_exits, exits};
ghost use Rattle.abs_step.specs.WorkView.{exits_view, inputs_view};

use super::inputs::{Inputs, ahead};
use f8_ops::{Op, Row, length, row_of};

/// An address, with the return there.
#[derive(Clone, Copy, Default)]
pub struct Exit {
    pub at: u16,
    pub ret: Option<u16>,
}

/// Where an instruction may lead: nowhere where the address isn't known, and two ways where it isn't known whether a branch is taken, the
/// taken one first.
#[derive(Clone, Copy)]
pub enum Exits {
    Nowhere,
    One(Exit),
    Two(Exit, Exit),
}

impl Exits {
    /// Those of an instruction at an address, with the return there.
    pub fn of(op: Op, inputs: &Inputs, at: u16, ret: Option<u16>) -> Exits
        ensures { exits_view result ≡ exits (row_of op) (inputs_view inputs.now) at ret }
    {
        match row_of(op) {
            Row::StackFromK => Exits::to(Some(ahead(at, 1)), inputs.k.word()),
            Row::CallK => Exits::to(inputs.k.word(), Some(ahead(at, 1))),
            Row::JumpQ => Exits::to(inputs.q.word(), ret),
            Row::Return => Exits::to(ret, ret),
            Row::Call => Exits::to(inputs.operands(), Some(ahead(at, 3))),
            Row::Jump => Exits::to(inputs.operands(), ret),
            Row::Branch | Row::BranchIsar => {
                Exits::by(inputs.taken, inputs.branch_target(at), ahead(at, 2), ret)
            },
            _ => Exits::to(Some(ahead(at, u16::from(length(op)))), ret),
        }
    }

    fn to(at: Option<u16>, ret: Option<u16>) -> Exits
        ensures { exits_view result ≡ exit_to at ret }
    {
        match at {
            Some(at) => Exits::One(Exit { at, ret }),
            None => Exits::Nowhere,
        }
    }

    /// Those of a branch. It narrows nothing.
    fn by(taken: Option<bool>, target: Option<u16>, next: u16, ret: Option<u16>) -> Exits
        ensures { exits_view result ≡ branch_exits taken target next ret }
    {
        match taken {
            Some(true) => Exits::to(target, ret),
            Some(false) => Exits::to(Some(next), ret),
            None => match target {
                Some(target) => Exits::Two(Exit { at: target, ret }, Exit { at: next, ret }),
                None => Exits::to(Some(next), ret),
            },
        }
    }
}
