// The 3851.
ghost use Rattle.std.specs.Prelude.{◌≡◌, ◌<◌, ◌%◌, ◌≤◌};

use chip_face::{Chip, ChipKind, ChipSpec, FitFault, Offer, PSU_ROM_SIZE};
use f8_counters::{IoPorts, Registers, counter_byte, high_byte, low_byte, offered, offered_if};
use romc_table::{Counters, Driver, Romc, counter_of, driver_of};
use std::alloc::Global;

/// A 3851. It tells no step that it heard, and has no patch.
#[derive(Drop)]
pub struct Psu {
    /// A 3851 has no second data counter: that one stays where power-on set it, and no call tells it.
    registers: Registers,

    /// The byte of the last bus step.
    last: u8,

    /// The first address that the chip holds.
    base: u16,

    /// How many addresses it holds: 1,024, and none while it is blank.
    size: u16,

    /// Two data ports, control and timer, with the interrupt. It has none of them while it is blank.
    ports: IoPorts,

    /// How many questions were put to the chip.
    asked: u64,
    rom: [u8; PSU_ROM_SIZE],
    ghost boundary: { base % 1024 ≡ 0 },
    ghost whole: { size % 1024 ≡ 0 },
    ghost one_rom: { size ≤ 1024 },
}

impl Psu {
    ghost use Rattle.chip_face.specs.Queries.{one_more};
    ghost use Rattle.psu3851.specs.PsuState.{psu_state, psu_queries, blank_psu};

    /// A 3851 that holds no address and has no port, with its counters at 0. It was put no question.
    pub fn blank() -> Psu
        ensures state { psu_state result ≡ blank_psu }
        ensures asked { psu_queries result ≡ 0 }
    {
        Psu {
            registers: Registers::at(0),
            last: 0,
            base: 0,
            size: 0,
            ports: IoPorts::new(None, 0, false),
            asked: 0,
            rom: [0; PSU_ROM_SIZE],
        }
    }

    /// Makes it blank again. The questions that were put to it stay counted.
    fn clear(&mut self)
        ensures state { psu_state self.new ≡ blank_psu }
        ensures asked { psu_queries self.new ≡ psu_queries self.old }
    {
        let asked = self.asked;
        *self = Psu::blank();
        self.asked = asked;
    }

    /// Counts a question.
    #[inline]
    fn count(&mut self)
        ensures { self.new ≡ record self.old { asked = one_more self.old.asked } }
    {
        self.asked = self.asked.saturating_add(1);
    }
}

/// What a chip offers.
impl Psu {
    ghost use Rattle.f8_spec.specs.BusCodes.{driver_of as driver_by_table};
    ghost use Rattle.f8_spec.specs.ChipState.{held_byte, holds, offered_at as offer_at};
    ghost use Rattle.psu3851.specs.PsuState.{psu_view};

    /// The address lies in the chip's ROM.
    #[inline]
    fn holds(&self, at: u16) -> bool
        ensures { result ≡ holds (psu_view self.now) at }
    {
        at.wrapping_sub(self.base) < self.size
    }

    /// The byte at an address in the chip's ROM, and `None` at another.
    #[inline]
    fn byte(&self, at: u16) -> Option<u8>
        ensures { result ≡ held_byte (psu_view self.now) at }
    {
        let place = at.wrapping_sub(self.base);
        if place < self.size {
            Some(self.rom[place as usize])
        } else {
            None
        }
    }

    /// What the chip offers at its counter by which a step goes. A 3851 has no RAM, so it takes no store.
    #[inline]
    fn offered_at(&self, romc: Romc, at: u16) -> Option<Offer>
        ensures { result ≡ offer_at (driver_by_table romc) romc (psu_view self.now) at }
    {
        match driver_of(romc) {
            Driver::Memory => offered(self.byte(at)?, at),
            Driver::CounterByte => offered_if(self.holds(at), counter_byte(romc, at), at),
            _ => None,
        }
    }
}

/// What a bus step does.
impl Psu {
    ghost use Rattle.f8_spec.specs.ChipState.{after_step, effect, timer_passed};
    ghost use Rattle.f8_spec.specs.ShiftTimer.{step_period};
    ghost use Rattle.psu3851.specs.PsuState.{psu_view, psu_queries};

    /// The clocks of the step, which pass before its effect.
    #[inline]
    fn pass(&mut self, phi: u8)
        requires { phi < step_period }
        ensures view { psu_view self.new ≡ timer_passed phi (psu_view self.old) }
        ensures asked { psu_queries self.new ≡ psu_queries self.old }
    {
        self.ports.interrupts.pass(phi);
    }

    /// The effect of the code on ports and request. A 3851 has no RAM, so that a store is lost.
    #[inline]
    fn act(&mut self, romc: Romc, byte: u8, first: bool)
        ensures view { psu_view self.new ≡ effect romc byte first (psu_view self.old) }
        ensures asked { psu_queries self.new ≡ psu_queries self.old }
    {
        match romc {
            Romc::VECTOR_HIGH if first => self.ports.interrupts.acknowledge(),
            Romc::WRITE_PORT => self.ports.write(self.last, byte),
            _ => {}
        }
    }

    /// All of it: the clocks, the effect of the code on ports and request, and what the counters do.
    #[inline(always)]
    fn follow(&mut self, romc: Romc, byte: u8, phi: u8, first: bool)
        requires { phi < step_period }
        ensures view { psu_view self.new ≡ after_step (record {
          romc = romc;
          byte = byte;
          clocks = phi;
          first = first;
        }) (psu_view self.old) }
        ensures asked { psu_queries self.new ≡ psu_queries self.old }
    {
        self.pass(phi);
        self.act(romc, byte, first);
        // There is no second data counter, and so nothing to exchange.
        self.registers.hear(romc, byte, false);
        self.last = byte;
    }
}

impl Chip for Psu {
    ghost use Rattle.std.specs.Prelude.{◌≢◌, ◌↔◌, OnOk, OnErr, IsErrOf};
    ghost use Rattle.f8_spec.specs.ChipState.{IsWhole};
    ghost use Rattle.chip_face.specs.Fitting.{FitsAs, IsSpec, kind_of};
    ghost use Rattle.psu3851.specs.PsuState.{psu_state, psu_queries};

    ghost state = { psu_state };

    ghost queries = { psu_queries };

    fn kind(&self) -> ChipKind {
        ChipKind::Psu
    }

    /// A 3851 has the room for its ROM, so that memory is never wanting.
    fn fit(&mut self, _alloc: Global, spec: &ChipSpec) -> Result<(), FitFault>
        requires { IsSpec spec.now }
        ensures ok { OnOk result (FitsAs spec.now (psu_state self.old) (psu_state self.new)) }
        ensures whole { OnOk result (IsWhole (psu_state self.new).view) }
        ensures wrong_kind { IsErrOf result FitFault.WrongKind
            ↔ (kind_of spec.now ≢ (psu_state self.old).view.kind) }
        ensures memory { IsErrOf result FitFault.Memory → ⊥ }
        ensures err { OnErr result (psu_state self.new ≡ psu_state self.old) }
        ensures asked { psu_queries self.new ≡ psu_queries self.old }
    {
        match spec {
            ChipSpec::Blank(ChipKind::Psu) => {
                self.clear();
                Ok(())
            }
            ChipSpec::Psu {
                base,
                rom,
                ports,
                vector,
                wired,
            } => {
                self.clear();
                self.rom.copy_from_slice(rom.as_bytes());
                self.base = *base;
                self.size = PSU_ROM_SIZE as u16;
                self.ports = IoPorts::new(Some(*ports), *vector, *wired);
                Ok(())
            }
            ChipSpec::Blank(ChipKind::Smi | ChipKind::Pio)
            | ChipSpec::Smi { .. }
            | ChipSpec::Pio { .. } => Err(FitFault::WrongKind),
        }
    }

    #[tactic(auto, using(crate::proofs::RomPages::filled_held))]
    fn power(&mut self, _fill: u8, start: u16) {
        self.registers = Registers::at(start);
        self.last = 0;
        self.ports.power();
    }

    fn offer(&mut self, romc: Romc, first: bool) -> Option<Offer> {
        self.count();
        match romc {
            Romc::VECTOR_LOW if first => {
                let at = self.ports.given_vector();
                offered(low_byte(at), at)
            }
            Romc::VECTOR_HIGH if first => {
                let at = self.ports.given_vector();
                offered(high_byte(at), at)
            }
            // A port goes by the last byte, which names it. The chip takes a byte.
            Romc::WRITE_PORT => offered_if(self.ports.has(self.last), 0, u16::from(self.last)),
            Romc::READ_PORT => offered(self.ports.read(self.last)?, u16::from(self.last)),
            _ => self.offered_at(romc, self.registers.value(counter_of(romc))?),
        }
    }

    fn settle(&mut self, romc: Romc, byte: u8, phi: u8, first: bool) {
        // By far the most steps are fetches: what they do is worked out by itself as the program is compiled.
        if romc == Romc::FETCH {
            self.follow(Romc::FETCH, byte, phi, first);
        } else {
            self.follow(romc, byte, phi, first);
        }
    }

    fn asks(&self) -> bool {
        self.ports.interrupts.asks()
    }

    fn counters(&mut self) -> Counters {
        self.count();
        self.registers.counters(false)
    }

    fn peek(&mut self, at: u16) -> Option<u8> {
        self.count();
        self.byte(at)
    }

    fn takes(&mut self, _at: u16) -> bool {
        self.count();
        false
    }

    fn latch(&mut self, port: u8) -> Option<u8> {
        self.count();
        self.ports.latch(port)
    }

    fn keys(&mut self, port: u8, byte: u8) {
        self.ports.set_keys(port, byte);
    }

    fn pulse(&mut self) {
        self.ports.interrupts.pulse();
    }

    fn asked(&self) -> u64 {
        self.asked
    }
}
