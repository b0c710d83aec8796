// The four ports of a chip that has two data ports.
ghost use Rattle.std.specs.Prelude.{◌≡◌, [], ◌∷◌, false, is_some, option_and_then, option_map};
ghost use Rattle.f8_spec.specs.ChipState.{data_port, keyed, latch_at, offset_from, port_role, port_written_if};
ghost use Rattle.f8_spec.specs.ChipState.{read_port, vector_under};
ghost use Rattle.f8_spec.specs.ShiftTimer.{idle_timer};

use super::interrupts::Interrupts;
use super::ports::port_offset;

/// The four ports of a 3851 and of a 3861, two data ports, control and timer, with the interrupt and its vector (Mostek 3851 and 3861 data
/// sheets). What calls do to them is said by the view of a chip that has these ports and nothing else (`ports_view`).
#[derive(Clone, Copy, Debug, PartialEq, Eq)]
pub struct IoPorts {
    /// The first of the four, and none of a blank chip.
    first: Option<u8>,

    /// A latch and a key byte for each data port.
    latches: [u8; 2],
    key_bytes: [u8; 2],

    /// Control, timer and request.
    pub interrupts: Interrupts,

    /// The interrupt vector, which no port writes.
    vector: u16,
}

impl IoPorts {
    ghost use Rattle.f8_counters.specs.IoPortsView.{ports_view};

    /// The ports of a chip before power-on: latches, key bytes and control are 0, the timer stands at FF, and no request is latched.
    pub fn new(first: Option<u8>, vector: u16, wired: bool) -> IoPorts
        ensures { result ≡ record {
          first = first;
          latches = 0 ∷ 0 ∷ [];
          key_bytes = 0 ∷ 0 ∷ [];
          interrupts = record {
            control = 0;
            timer = idle_timer;
            wired = wired;
            request = false;
          };
          vector = vector;
        } }
    {
        IoPorts {
            first,
            latches: [0; 2],
            key_bytes: [0; 2],
            interrupts: Interrupts::new(wired),
            vector,
        }
    }

    /// Power-on, which leaves the place of the ports, the vector and the wiring.
    pub fn power(&mut self)
        ensures { self.new ≡ record self.old {
          latches = 0 ∷ 0 ∷ [];
          key_bytes = 0 ∷ 0 ∷ [];
          interrupts = record {
            control = 0;
            timer = idle_timer;
            wired = self.old.interrupts.wired;
            request = false;
          };
        } }
    {
        self.latches = [0; 2];
        self.key_bytes = [0; 2];
        self.interrupts.power();
    }

    /// The place of a port among the four, and `None` where it is not one of them.
    #[inline]
    fn offset(&self, port: u8) -> Option<u8>
        ensures { result ≡ option_and_then (offset_from port) self.now.first }
    {
        port_offset(port, self.first?)
    }

    /// The port is one of the four.
    #[inline]
    pub fn has(&self, port: u8) -> bool
        ensures { result ≡ is_some (port_role (ports_view self.now) port) }
    {
        self.offset(port).is_some()
    }

    /// The place of a data port's latch, and `None` where the port is not a data port.
    #[inline]
    fn data_port(&self, port: u8) -> Option<usize>
        ensures { result ≡ data_port (ports_view self.now) port }
    {
        let offset = self.offset(port)?;
        if offset < 2 {
            Some(usize::from(offset))
        } else {
            None
        }
    }

    /// The latch of a data port, and `None` where the port is not a data port.
    #[inline]
    pub fn latch(&self, port: u8) -> Option<u8>
        ensures { result ≡ latch_at (ports_view self.now) port }
    {
        let place = self.data_port(port)?;
        Some(self.latches[place])
    }

    /// What a data port reads as, its latch or its key byte, and `None` where the port is not a data port.
    #[inline]
    pub fn read(&self, port: u8) -> Option<u8>
        ensures { result ≡ option_map (read_port (ports_view self.now))
            (data_port (ports_view self.now) port) }
    {
        let place = self.data_port(port)?;
        Some(self.latches[place] | self.key_bytes[place])
    }

    /// Sets the key byte of a data port. On a port that is not a data port nothing changes.
    #[inline]
    pub fn set_keys(&mut self, port: u8, byte: u8)
        ensures { ports_view self.new ≡ keyed port byte (ports_view self.old) }
    {
        if let Some(place) = self.data_port(port) {
            self.key_bytes[place] = byte;
        }
    }

    /// A byte for a port, which is lost where it is not one of the four. A write to control ends a latched request.
    #[inline]
    pub fn write(&mut self, port: u8, byte: u8)
        ensures { ports_view self.new ≡
            port_written_if (port_role (ports_view self.old) port) byte (ports_view self.old) }
    {
        match self.offset(port) {
            Some(0) => self.latches[0] = byte,
            Some(1) => self.latches[1] = byte,
            Some(2) => self.interrupts.write_control(byte),
            Some(3) => self.interrupts.write_timer(byte),
            _ => {}
        }
    }

    /// The vector given for a request.
    #[inline]
    pub fn given_vector(&self) -> u16
        ensures { result ≡ vector_under self.now.interrupts.control self.now.vector }
    {
        self.interrupts.given_vector(self.vector)
    }
}
