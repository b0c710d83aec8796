// The bus's own reference counters.
ghost use Rattle.std.specs.Prelude.{◌≡◌};

use super::addresses::{displaced_by, with_high_byte, with_low_byte};
use romc_table::{Counters, Romc};
use std::marker::Model;

/// Four counters and the byte last heard. A bus step is served only where the chip that answers in it stands at the probe's address,
/// which is this project's own rule. Contracts see a `ProbeState`.
#[derive(Clone, Copy, Debug, PartialEq, Eq)]
pub struct Probe {
    pc0: u16,
    pc1: u16,
    dc0: u16,
    dc1: u16,

    /// The byte of the last bus step.
    last: u8,
}

impl Model for Probe {
    ghost use Rattle.probe.specs.ProbeState.{ProbeState};

    ghost Value = { ProbeState };

    ghost view = { λ p. record {
      count = record { pc0 = p.pc0; pc1 = p.pc1; dc0 = p.dc0; dc1 = p.dc1 };
      last = p.last;
    } };

    ghost inverse = { λ s. record {
      pc0 = s.count.pc0;
      pc1 = s.count.pc1;
      dc0 = s.count.dc0;
      dc1 = s.count.dc1;
      last = s.last;
    } };
}

impl Probe {
    ghost use Rattle.probe.specs.ProbeState.{new_probe, probe_after, probe_counters};

    /// All four counters at 0, and the byte last heard 00.
    pub fn new() -> Probe
        ensures { result ≡ new_probe }
    {
        Probe {
            pc0: 0,
            pc1: 0,
            dc0: 0,
            dc1: 0,
            last: 0,
        }
    }

    /// Hears a bus step: its code and its byte (Mostek 3851 and 3853 data sheets, ROMC states).
    pub fn hear(&mut self, romc: Romc, byte: u8)
        ensures { self.new ≡ probe_after romc byte self.old }
    {
        match romc {
            Romc::FETCH | Romc::OPERAND => self.pc0 = self.pc0.wrapping_add(1),
            // A branch counts from the address of its displacement byte.
            Romc::DISPLACEMENT => self.pc0 = displaced_by(self.pc0, byte),
            Romc::READ_DATA | Romc::STORE_DATA => self.dc0 = self.dc0.wrapping_add(1),
            Romc::RETURN => self.pc0 = self.pc1,
            // Reset.
            Romc::RESET => {
                self.pc1 = self.pc0;
                self.pc0 = 0;
            }
            Romc::ADD_DATA => self.dc0 = displaced_by(self.dc0, byte),
            Romc::JUMP_LOW | Romc::SET_PROGRAM_LOW => self.pc0 = with_low_byte(self.pc0, byte),
            Romc::SAVE_NEXT => self.pc1 = self.pc0.wrapping_add(1),
            Romc::LOAD_DATA_LOW | Romc::SET_DATA_LOW => self.dc0 = with_low_byte(self.dc0, byte),
            // A call: the program counter is kept in the stack register.
            Romc::VECTOR_LOW | Romc::CALL_LOW => {
                self.pc1 = self.pc0;
                self.pc0 = with_low_byte(self.pc0, byte);
            }
            Romc::LOAD_DATA_HIGH | Romc::SET_DATA_HIGH => self.dc0 = with_high_byte(self.dc0, byte),
            Romc::VECTOR_HIGH | Romc::SET_PROGRAM_HIGH => self.pc0 = with_high_byte(self.pc0, byte),
            Romc::SET_STACK_HIGH => self.pc1 = with_high_byte(self.pc1, byte),
            Romc::SET_STACK_LOW => self.pc1 = with_low_byte(self.pc1, byte),
            // The two data counters change places.
            Romc::EXCHANGE => std::mem::swap(&mut self.dc0, &mut self.dc1),
            _ => {}
        }
        self.last = byte;
    }

    /// The four counters.
    pub fn counters(&self) -> Counters
        ensures { result ≡ probe_counters self.now }
    {
        Counters {
            pc0: self.pc0,
            pc1: self.pc1,
            dc0: self.dc0,
            dc1: Some(self.dc1),
        }
    }

    /// The byte last heard, which names the port of a port step.
    pub fn last(&self) -> u8
        ensures { result ≡ self.now.last }
    {
        self.last
    }
}
