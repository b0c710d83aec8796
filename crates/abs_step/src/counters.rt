// What is known of the data counters and of the chips' copies of them, and what an instruction makes of it.
ghost use Rattle.std.specs.Prelude.{◌≡◌, option_map, option_and_then};
ghost use Rattle.f8_spec.specs.Words.{displaced};
ghost use Rattle.abs_domain.specs.StateView.{counters_of};
ghost use Rattle.abs_step.specs.Known.{agree};
ghost use Rattle.abs_step.specs.KnownFlow.{with_loaded, with_moved, with_exchanged, known_counters};
ghost use Rattle.abs_step.specs.WorkView.{counters_view, inputs_view};

use super::inputs::Inputs;
use abs_domain::Abs;
use f8_ops::Row;
use f8_words::wrap_add;

/// Whether two addresses are known to be the same.
fn agree(first: Option<u16>, second: Option<u16>) -> bool
    ensures { result ≡ agree first second }
{
    match first {
        Some(first) => match second {
            Some(second) => first == second,
            None => false,
        },
        None => false,
    }
}

/// What is known of the data counters, and the facts on the chips' copies, as a state has them.
#[derive(Clone, Copy)]
pub struct Counters {
    pub d0: Option<u16>,
    pub d1: Option<u16>,
    pub c: Option<u16>,
    pub s0: bool,
    pub s1: bool,
    pub p0: bool,
    pub p1: bool,
}

impl Counters {
    /// Those of a state.
    pub fn of(abs: &Abs) -> Counters
        ensures { counters_view result ≡ counters_of abs.now }
    {
        Counters {
            d0: abs.d0.known(),
            d1: abs.d1.known(),
            c: abs.c.known(),
            s0: abs.s0,
            s1: abs.s1,
            p0: abs.p0,
            p1: abs.p1,
        }
    }

    /// What an instruction of a row leaves.
    pub fn after(self, row: Row, inputs: &Inputs) -> Counters
        ensures { counters_view result
            ≡ known_counters row (inputs_view inputs.now) (counters_view self) }
    {
        match row {
            Row::DataFromQ => self.with_loaded(inputs.q.word()),
            Row::DataFromH => self.with_loaded(inputs.h.word()),
            Row::LoadData => self.with_loaded(inputs.operands()),
            Row::ReadData | Row::StoreData => self.with_moved(Some(1)),
            Row::AddData => self.with_moved(inputs.accumulator),
            Row::Exchange => self.with_exchanged(),
            _ => self,
        }
    }

    /// After a load of D0, after which each DC0 is D0.
    fn with_loaded(self, at: Option<u16>) -> Counters
        ensures { counters_view result ≡ with_loaded at (counters_view self) }
    {
        Counters {
            d0: at,
            c: at,
            s0: true,
            p0: true,
            p1: agree(at, self.d1),
            ..self
        }
    }

    /// After D0 and each DC0 moved alike, by a signed byte.
    fn with_moved(self, by: Option<u8>) -> Counters
        ensures { counters_view result
            ≡ with_moved (λ at. option_map (displaced at) by) (counters_view self) }
    {
        let c = moved_address(self.c, by);
        Counters {
            d0: moved_address(self.d0, by),
            c,
            p1: agree(c, self.d1),
            ..self
        }
    }

    /// After D0 and D1 were exchanged, which a 3851 can't do.
    fn with_exchanged(self) -> Counters
        ensures { counters_view result ≡ with_exchanged (counters_view self) }
    {
        Counters {
            d0: self.d1,
            d1: self.d0,
            c: self.c,
            s0: self.s1,
            s1: self.s0,
            p0: self.p1,
            p1: self.p0,
        }
    }
}

/// An address moved by a signed byte, where both are known.
fn moved_address(at: Option<u16>, by: Option<u8>) -> Option<u16>
    ensures { result ≡ option_and_then (λ at. option_map (displaced at) by) at }
{
    Some(wrap_add(at?, by?.cast_signed()))
}
