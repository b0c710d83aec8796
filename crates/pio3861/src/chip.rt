// The 3861.
ghost use Rattle.std.specs.Prelude.{◌≡◌, ◌<◌, ◌≤◌};

use chip_face::{Chip, ChipKind, ChipSpec, FitFault, Offer};
use f8_counters::{IoPorts, high_byte, low_byte, offered, offered_if};
use romc_table::{Counters, Romc};
use std::alloc::Global;

/// A 3861. It holds no address and keeps no counter. It tells no step that it heard, and has no patch.
#[derive(Drop)]
pub struct Pio {
    /// The byte of the last bus step.
    last: u8,

    /// Two data ports, control and timer, with the interrupt. It has none of them while it is blank.
    ports: IoPorts,

    /// How many questions were put to the chip.
    asked: u64,
}

impl Pio {
    ghost use Rattle.chip_face.specs.Queries.{one_more};
    ghost use Rattle.pio3861.specs.PioState.{pio_state, pio_queries, blank_pio};

    /// A 3861 that has no port. It was put no question.
    pub fn blank() -> Pio
        ensures state { pio_state result ≡ blank_pio }
        ensures asked { pio_queries result ≡ 0 }
    {
        Pio {
            last: 0,
            ports: IoPorts::new(None, 0, false),
            asked: 0,
        }
    }

    /// Makes it blank again. The questions that were put to it stay counted.
    fn clear(&mut self)
        ensures state { pio_state self.new ≡ blank_pio }
        ensures asked { pio_queries self.new ≡ pio_queries self.old }
    {
        let asked = self.asked;
        *self = Pio::blank();
        self.asked = asked;
    }

    /// Counts a question.
    #[inline]
    fn count(&mut self)
        ensures { self.new ≡ record self.old { asked = one_more self.old.asked } }
    {
        self.asked = self.asked.saturating_add(1);
    }
}

/// What a bus step does.
impl Pio {
    ghost use Rattle.f8_spec.specs.ChipState.{effect, timer_passed};
    ghost use Rattle.f8_spec.specs.ShiftTimer.{step_period};
    ghost use Rattle.pio3861.specs.PioState.{pio_view, pio_queries};

    /// The clocks of the step, which pass before its effect.
    #[inline]
    fn pass(&mut self, phi: u8)
        requires { phi < step_period }
        ensures view { pio_view self.new ≡ timer_passed phi (pio_view self.old) }
        ensures asked { pio_queries self.new ≡ pio_queries self.old }
    {
        self.ports.interrupts.pass(phi);
    }

    /// The effect of the code on ports and request. A 3861 has no RAM, so that a store is lost.
    #[inline]
    fn act(&mut self, romc: Romc, byte: u8, first: bool)
        ensures view { pio_view self.new ≡ effect romc byte first (pio_view self.old) }
        ensures asked { pio_queries self.new ≡ pio_queries self.old }
    {
        match romc {
            Romc::VECTOR_HIGH if first => self.ports.interrupts.acknowledge(),
            Romc::WRITE_PORT => self.ports.write(self.last, byte),
            _ => {}
        }
    }
}

impl Chip for Pio {
    ghost use Rattle.std.specs.Prelude.{◌≢◌, ◌↔◌, OnOk, OnErr, IsErrOf};
    ghost use Rattle.f8_spec.specs.ChipState.{IsWhole};
    ghost use Rattle.chip_face.specs.Fitting.{FitsAs, IsSpec, kind_of};
    ghost use Rattle.pio3861.specs.PioState.{pio_state, pio_queries};

    ghost state = { pio_state };

    ghost queries = { pio_queries };

    fn kind(&self) -> ChipKind {
        ChipKind::Pio
    }

    /// A 3861 has no memory, so that none is wanting.
    fn fit(&mut self, _alloc: Global, spec: &ChipSpec) -> Result<(), FitFault>
        requires { IsSpec spec.now }
        ensures ok { OnOk result (FitsAs spec.now (pio_state self.old) (pio_state self.new)) }
        ensures whole { OnOk result (IsWhole (pio_state self.new).view) }
        ensures wrong_kind { IsErrOf result FitFault.WrongKind
            ↔ (kind_of spec.now ≢ (pio_state self.old).view.kind) }
        ensures memory { IsErrOf result FitFault.Memory → ⊥ }
        ensures err { OnErr result (pio_state self.new ≡ pio_state self.old) }
        ensures asked { pio_queries self.new ≡ pio_queries self.old }
    {
        match spec {
            ChipSpec::Blank(ChipKind::Pio) => {
                self.clear();
                Ok(())
            }
            ChipSpec::Pio {
                ports,
                vector,
                wired,
            } => {
                self.clear();
                self.ports = IoPorts::new(Some(*ports), *vector, *wired);
                Ok(())
            }
            ChipSpec::Blank(ChipKind::Psu | ChipKind::Smi)
            | ChipSpec::Psu { .. }
            | ChipSpec::Smi { .. } => Err(FitFault::WrongKind),
        }
    }

    fn power(&mut self, _fill: u8, _start: u16) {
        self.last = 0;
        self.ports.power();
    }

    fn offer(&mut self, romc: Romc, first: bool) -> Option<Offer> {
        self.count();
        match romc {
            Romc::VECTOR_LOW if first => {
                let at = self.ports.given_vector();
                offered(low_byte(at), at)
            }
            Romc::VECTOR_HIGH if first => {
                let at = self.ports.given_vector();
                offered(high_byte(at), at)
            }
            // A port goes by the last byte, which names it. The chip takes a byte.
            Romc::WRITE_PORT => offered_if(self.ports.has(self.last), 0, u16::from(self.last)),
            Romc::READ_PORT => offered(self.ports.read(self.last)?, u16::from(self.last)),
            _ => None,
        }
    }

    fn settle(&mut self, romc: Romc, byte: u8, phi: u8, first: bool) {
        self.pass(phi);
        self.act(romc, byte, first);
        self.last = byte;
    }

    fn asks(&self) -> bool {
        self.ports.interrupts.asks()
    }

    fn counters(&mut self) -> Counters {
        self.count();
        Counters {
            pc0: 0,
            pc1: 0,
            dc0: 0,
            dc1: None,
        }
    }

    fn peek(&mut self, _at: u16) -> Option<u8> {
        self.count();
        None
    }

    fn takes(&mut self, _at: u16) -> bool {
        self.count();
        false
    }

    fn latch(&mut self, port: u8) -> Option<u8> {
        self.count();
        self.ports.latch(port)
    }

    fn keys(&mut self, port: u8, byte: u8) {
        self.ports.set_keys(port, byte);
    }

    fn pulse(&mut self) {
        self.ports.interrupts.pulse();
    }

    fn asked(&self) -> u64 {
        self.asked
    }
}
