// The counters of a storage chip.
ghost use Rattle.std.specs.Prelude.{◌≡◌};
ghost use Rattle.f8_spec.specs.BusCodes.{count_at, counter_value, moved_by, told_count};

use super::words::{with_high, with_low};
use f8_words::wrap_add;
use romc_table::{Counter, Counters, Romc};
use std::marker::Model;

/// The counters of a storage chip: program counter, stack register and two data counters, each an address (Mostek 3851 and 3853 data
/// sheets). Contracts see the four. A chip without a second data counter leaves that one as it is.
#[derive(Clone, Copy, Debug, PartialEq, Eq)]
pub struct Registers {
    pc0: u16,
    pc1: u16,
    dc0: u16,
    dc1: u16,
}

impl Model for Registers {
    ghost use Rattle.f8_spec.specs.BusCodes.{Count};

    ghost Value = { Count };

    ghost view = { λ r. record { pc0 = r.pc0; pc1 = r.pc1; dc0 = r.dc0; dc1 = r.dc1 } };

    ghost inverse = { λ c. record { pc0 = c.pc0; pc1 = c.pc1; dc0 = c.dc0; dc1 = c.dc1 } };
}

impl Registers {
    /// All four at one address.
    pub fn at(start: u16) -> Registers
        ensures { result ≡ count_at start }
    {
        Registers {
            pc0: start,
            pc1: start,
            dc0: start,
            dc1: start,
        }
    }

    /// The counters as a chip tells them; `dc1` says that it has a second data counter.
    #[inline]
    pub fn counters(&self, dc1: bool) -> Counters
        ensures { result ≡ told_count dc1 self.now }
    {
        Counters {
            pc0: self.pc0,
            pc1: self.pc1,
            dc0: self.dc0,
            dc1: if dc1 { Some(self.dc1) } else { None },
        }
    }

    /// The counter by which a bus step goes, and `None` where it goes by none.
    #[inline]
    pub fn value(&self, counter: Counter) -> Option<u16>
        ensures { result ≡ counter_value counter self.now }
    {
        match counter {
            Counter::Pc0 => Some(self.pc0),
            Counter::Pc1 => Some(self.pc1),
            Counter::Dc0 => Some(self.dc0),
            Counter::NoCounter => None,
        }
    }

    /// Follows a bus step with its byte. `dc1` says that the chip has a second data counter, which code 1D exchanges with the first;
    /// without one nothing moves there.
    #[inline(always)]
    pub fn hear(&mut self, romc: Romc, byte: u8, dc1: bool)
        ensures { self.new ≡ moved_by romc byte dc1 self.old }
    {
        match romc {
            Romc::FETCH | Romc::OPERAND => self.pc0 = self.pc0.wrapping_add(1),
            // A branch counts from the address of its displacement byte.
            Romc::DISPLACEMENT => self.pc0 = wrap_add(self.pc0, byte.cast_signed()),
            Romc::READ_DATA | Romc::STORE_DATA => self.dc0 = self.dc0.wrapping_add(1),
            Romc::RETURN => self.pc0 = self.pc1,
            Romc::RESET => {
                self.pc1 = self.pc0;
                self.pc0 = 0;
            }
            Romc::ADD_DATA => self.dc0 = wrap_add(self.dc0, byte.cast_signed()),
            Romc::JUMP_LOW | Romc::SET_PROGRAM_LOW => self.pc0 = with_low(self.pc0, byte),
            Romc::SAVE_NEXT => self.pc1 = self.pc0.wrapping_add(1),
            Romc::LOAD_DATA_LOW | Romc::SET_DATA_LOW => self.dc0 = with_low(self.dc0, byte),
            Romc::VECTOR_LOW | Romc::CALL_LOW => {
                self.pc1 = self.pc0;
                self.pc0 = with_low(self.pc0, byte);
            }
            Romc::LOAD_DATA_HIGH | Romc::SET_DATA_HIGH => self.dc0 = with_high(self.dc0, byte),
            Romc::VECTOR_HIGH | Romc::SET_PROGRAM_HIGH => self.pc0 = with_high(self.pc0, byte),
            Romc::SET_STACK_HIGH => self.pc1 = with_high(self.pc1, byte),
            Romc::SET_STACK_LOW => self.pc1 = with_low(self.pc1, byte),
            Romc::EXCHANGE if dc1 => {
                let dc0 = self.dc0;
                self.dc0 = self.dc1;
                self.dc1 = dc0;
            }
            _ => {}
        }
    }
}
