// The 3853.
ghost use Rattle.std.specs.Prelude.{◌≡◌, ◌<◌};

use super::space::Space;
use chip_face::{Chip, ChipKind, ChipSpec, FitFault, Offer, SMI_FIRST_PORT};
use f8_counters::{
    Interrupts, Registers, counter_byte, high_byte, low_byte, offered, offered_if, port_offset,
    with_high, with_low,
};
use romc_table::{Counters, Driver, Romc, counter_of, driver_of};
use std::alloc::Global;

/// A 3853. It tells no step that it heard, and has no patch.
#[derive(Drop)]
pub struct Smi {
    registers: Registers,

    /// The byte of the last bus step.
    last: u8,

    /// The pages and their bytes, and none while it is blank.
    space: Option<Space>,

    /// Control, timer and request.
    interrupts: Interrupts,
    vector: u16,

    /// How many questions were put to the chip.
    asked: u64,
}

impl Smi {
    ghost use Rattle.chip_face.specs.Queries.{one_more};
    ghost use Rattle.smi3853.specs.SmiState.{smi_state, smi_queries, blank_smi};

    /// A 3853 that holds no address and has no port, with its counters at 0. It was put no question.
    pub fn blank() -> Smi
        ensures state { smi_state result ≡ blank_smi }
        ensures asked { smi_queries result ≡ 0 }
    {
        Smi {
            registers: Registers::at(0),
            last: 0,
            space: None,
            interrupts: Interrupts::new(false),
            vector: 0,
            asked: 0,
        }
    }

    /// Makes it blank again. The questions that were put to it stay counted.
    fn clear(&mut self)
        ensures state { smi_state self.new ≡ blank_smi }
        ensures asked { smi_queries self.new ≡ smi_queries self.old }
    {
        let asked = self.asked;
        *self = Smi::blank();
        self.asked = asked;
    }

    /// Counts a question.
    #[inline]
    fn count(&mut self)
        ensures { self.new ≡ record self.old { asked = one_more self.old.asked } }
    {
        self.asked = self.asked.saturating_add(1);
    }
}

/// What a chip offers.
impl Smi {
    ghost use Rattle.f8_spec.specs.BusCodes.{driver_of as driver_by_table};
    ghost use Rattle.f8_spec.specs.ChipState.{has_ram_at, held_byte, holds, offered_at as offer_at};
    ghost use Rattle.smi3853.specs.SmiState.{smi_view};

    /// The address lies in one of the chip's pages.
    #[inline]
    fn holds(&self, at: u16) -> bool
        ensures { result ≡ holds (smi_view self.now) at }
    {
        match &self.space {
            Some(space) => space.holds(at),
            None => false,
        }
    }

    /// The byte at an address in one of the chip's pages, and `None` at another.
    #[inline]
    fn byte(&self, at: u16) -> Option<u8>
        ensures { result ≡ held_byte (smi_view self.now) at }
    {
        self.space.as_ref()?.byte(at)
    }

    /// The address lies in a RAM page of the chip.
    #[inline]
    fn has_ram(&self, at: u16) -> bool
        ensures { result ≡ has_ram_at (smi_view self.now) at }
    {
        match &self.space {
            Some(space) => space.has_ram(at),
            None => false,
        }
    }

    /// What the chip offers at its counter by which a step goes. A store is taken in RAM.
    #[inline]
    fn offered_at(&self, romc: Romc, at: u16) -> Option<Offer>
        ensures { result ≡ offer_at (driver_by_table romc) romc (smi_view self.now) at }
    {
        match driver_of(romc) {
            Driver::Memory => offered(self.byte(at)?, at),
            Driver::CounterByte => offered_if(self.holds(at), counter_byte(romc, at), at),
            Driver::Cpu => offered_if(self.has_ram(at), 0, at),
            _ => None,
        }
    }
}

/// Ports.
impl Smi {
    ghost use Rattle.std.specs.Prelude.{option_and_then};
    ghost use Rattle.f8_spec.specs.ChipState.{offset_from, port_role, port_written_if, stored};
    ghost use Rattle.smi3853.specs.SmiState.{smi_view, smi_queries};

    /// The place of a port among the chip's four, and `None` where the chip doesn't have it.
    #[inline]
    fn port_offset(&self, port: u8) -> Option<u8>
        ensures { result ≡ option_and_then (offset_from port) (smi_view self.now).ports }
    {
        let _space = self.space.as_ref()?;
        port_offset(port, SMI_FIRST_PORT)
    }

    /// A byte for a port, which is lost where the chip doesn't have it. A write to control ends a latched request.
    fn write_port(&mut self, port: u8, byte: u8)
        ensures view { smi_view self.new ≡ port_written_if (port_role (smi_view self.old) port) byte
            (smi_view self.old) }
        ensures asked { smi_queries self.new ≡ smi_queries self.old }
    {
        match self.port_offset(port) {
            Some(0) => self.vector = with_high(self.vector, byte),
            Some(1) => self.vector = with_low(self.vector, byte),
            Some(2) => self.interrupts.write_control(byte),
            Some(3) => self.interrupts.write_timer(byte),
            _ => {}
        }
    }

    /// A byte stored at an address, which is lost where the chip has no RAM.
    #[inline]
    fn store(&mut self, at: u16, byte: u8)
        ensures view { smi_view self.new ≡ stored at byte (smi_view self.old) }
        ensures asked { smi_queries self.new ≡ smi_queries self.old }
    {
        if let Some(space) = &mut self.space {
            space.store(at, byte);
        }
    }
}

/// What a bus step does.
impl Smi {
    ghost use Rattle.f8_spec.specs.ChipState.{after_step, effect, timer_passed};
    ghost use Rattle.f8_spec.specs.ShiftTimer.{step_period};
    ghost use Rattle.smi3853.specs.SmiState.{smi_view, smi_queries};

    /// The clocks of the step, which pass before its effect.
    #[inline]
    fn pass(&mut self, phi: u8)
        requires { phi < step_period }
        ensures view { smi_view self.new ≡ timer_passed phi (smi_view self.old) }
        ensures asked { smi_queries self.new ≡ smi_queries self.old }
    {
        self.interrupts.pass(phi);
    }

    /// The effect of the code on memory, ports and request.
    #[inline]
    fn act(&mut self, romc: Romc, byte: u8, first: bool)
        ensures view { smi_view self.new ≡ effect romc byte first (smi_view self.old) }
        ensures asked { smi_queries self.new ≡ smi_queries self.old }
    {
        match romc {
            Romc::STORE_DATA => {
                let at = self.registers.counters(true).dc0;
                self.store(at, byte);
            }
            Romc::VECTOR_HIGH if first => self.interrupts.acknowledge(),
            Romc::WRITE_PORT => self.write_port(self.last, byte),
            _ => {}
        }
    }

    /// All of it: the clocks, the effect of the code on memory, ports and request, and what the counters do.
    #[inline(always)]
    fn follow(&mut self, romc: Romc, byte: u8, phi: u8, first: bool)
        requires { phi < step_period }
        ensures view { smi_view self.new ≡ after_step (record {
          romc = romc;
          byte = byte;
          clocks = phi;
          first = first;
        }) (smi_view self.old) }
        ensures asked { smi_queries self.new ≡ smi_queries self.old }
    {
        self.pass(phi);
        self.act(romc, byte, first);
        self.registers.hear(romc, byte, true);
        self.last = byte;
    }
}

impl Chip for Smi {
    ghost use Rattle.std.specs.Prelude.{◌≢◌, ◌↔◌, false, OnOk, OnErr, IsErrOf};
    ghost use Rattle.f8_spec.specs.ChipState.{IsWhole};
    ghost use Rattle.chip_face.specs.Fitting.{FitsAs, IsSpec, is_blank, kind_of};
    ghost use Rattle.smi3853.specs.SmiState.{smi_state, smi_queries};

    ghost state = { smi_state };

    ghost queries = { smi_queries };

    fn kind(&self) -> ChipKind {
        ChipKind::Smi
    }

    /// The pages' bytes take memory, which is never wanting where the chip is to be blank.
    fn fit(&mut self, alloc: Global, spec: &ChipSpec) -> Result<(), FitFault>
        requires { IsSpec spec.now }
        ensures ok { OnOk result (FitsAs spec.now (smi_state self.old) (smi_state self.new)) }
        ensures whole { OnOk result (IsWhole (smi_state self.new).view) }
        ensures wrong_kind { IsErrOf result FitFault.WrongKind
            ↔ (kind_of spec.now ≢ (smi_state self.old).view.kind) }
        ensures memory { IsErrOf result FitFault.Memory → is_blank spec.now ≡ false }
        ensures err { OnErr result (smi_state self.new ≡ smi_state self.old) }
        ensures asked { smi_queries self.new ≡ smi_queries self.old }
    {
        match spec {
            ChipSpec::Blank(ChipKind::Smi) => {
                self.clear();
                Ok(())
            }
            ChipSpec::Smi { pages, rom, wired } => {
                match Space::new(alloc, pages.as_slice(), rom.as_slice()) {
                    Ok(space) => {
                        self.clear();
                        self.space = Some(space);
                        self.interrupts = Interrupts::new(*wired);
                        Ok(())
                    }
                    Err(_) => Err(FitFault::Memory),
                }
            }
            ChipSpec::Blank(ChipKind::Psu | ChipKind::Pio)
            | ChipSpec::Psu { .. }
            | ChipSpec::Pio { .. } => Err(FitFault::WrongKind),
        }
    }

    fn power(&mut self, fill: u8, start: u16) {
        self.registers = Registers::at(start);
        self.last = 0;
        self.interrupts.power();
        self.vector = 0;
        if let Some(space) = &mut self.space {
            space.fill_ram(fill);
        }
    }

    fn offer(&mut self, romc: Romc, first: bool) -> Option<Offer> {
        self.count();
        match romc {
            Romc::VECTOR_LOW if first => {
                let at = self.interrupts.given_vector(self.vector);
                offered(low_byte(at), at)
            }
            Romc::VECTOR_HIGH if first => {
                let at = self.interrupts.given_vector(self.vector);
                offered(high_byte(at), at)
            }
            // A port goes by the last byte, which names it. The chip takes a byte.
            Romc::WRITE_PORT => {
                let _offset = self.port_offset(self.last)?;
                offered(0, u16::from(self.last))
            }
            // No port of a 3853 can be read.
            Romc::READ_PORT => None,
            _ => self.offered_at(romc, self.registers.value(counter_of(romc))?),
        }
    }

    fn settle(&mut self, romc: Romc, byte: u8, phi: u8, first: bool) {
        // By far the most steps are fetches: what they do is worked out by itself as the program is compiled.
        if romc == Romc::FETCH {
            self.follow(Romc::FETCH, byte, phi, first);
        } else {
            self.follow(romc, byte, phi, first);
        }
    }

    fn asks(&self) -> bool {
        self.interrupts.asks()
    }

    fn counters(&mut self) -> Counters {
        self.count();
        self.registers.counters(true)
    }

    fn peek(&mut self, at: u16) -> Option<u8> {
        self.count();
        self.byte(at)
    }

    fn takes(&mut self, at: u16) -> bool {
        self.count();
        self.has_ram(at)
    }

    fn latch(&mut self, _port: u8) -> Option<u8> {
        self.count();
        None
    }

    fn keys(&mut self, _port: u8, _byte: u8) {}

    fn pulse(&mut self) {
        self.interrupts.pulse();
    }

    fn asked(&self) -> u64 {
        self.asked
    }
}
