// The ports as the instruction set keeps them.
ghost use Rattle.std.specs.Prelude.{◌≡◌};
ghost use Rattle.f8_isa.specs.KeptPorts.{AreReadable, AreWritable};
ghost use Rattle.f8_isa.specs.Ports.{clocked};

use super::flat_memory::NO_BYTE;
use console_board::PortWrite;
use memory_map::Map;
use std::marker::Model;

/// A byte that a port takes.
#[derive(Clone, Copy)]
pub struct PortByte {
    pub port: u8,
    pub byte: u8,
}

/// The write of a byte that a port takes, if one does, by the clocks, in Φ, at the end of its instruction.
#[inline]
pub fn clocked(taken: Option<PortByte>, phi: u64) -> Option<PortWrite>
    ensures { result ≡ clocked phi taken }
{
    match taken {
        Some(PortByte { port, byte }) => Some(PortWrite { phi, port, byte }),
        None => None,
    }
}

/// A latch and a key byte for each of 256 ports, and which of the ports are those of exactly one chip: to read, and to write. Contracts see
/// the four lists.
#[derive(Drop)]
pub struct Ports {
    latches: [u8; 256],
    keys: [u8; 256],
    readable: [bool; 256],
    writable: [bool; 256],
}

impl Model for Ports {
    ghost use Rattle.f8_isa.specs.Ports.{PortState};

    ghost Value = { PortState };

    ghost view = { λ p. record { latches = p.latches; keys = p.keys; readable = p.readable; writable = p.writable } };
}

impl Ports {
    ghost use Rattle.std.specs.Prelude.{◌≡◌, ◌+◌, ◌<◌, ℕ, slice_index};
    ghost use Rattle.f8_spec.specs.Words.{word};
    ghost use Rattle.f8_isa.specs.Ports.{clocked, kept_value, chip_value, if_writable, ports_after, with_key_byte};
    ghost use Rattle.f8_isa.specs.KeptPorts.{AreFirstPorts};

    /// The ports at power-on, with each latch and each key byte 0.
    pub fn new(map: &Map) -> Ports
        ensures { AreFirstPorts map.now result }
    {
        Ports {
            latches: [0; 256],
            keys: [0; 256],
            readable: readable_ports(map),
            writable: writable_ports(map),
        }
    }

    /// The byte at one of the processor's own ports: its latch or its key byte.
    #[inline]
    pub fn own_byte(&self, port: u8) -> u8
        ensures { result ≡ kept_value self.now port }
    {
        self.latches[usize::from(port)] | self.keys[usize::from(port)]
    }

    /// The byte that the chips give at a port.
    #[inline]
    pub fn chip_byte(&self, port: u8) -> u8
        ensures { result ≡ chip_value self.now port }
    {
        if self.readable[usize::from(port)] {
            self.own_byte(port)
        } else {
            NO_BYTE
        }
    }

    /// The word whose halves were last written to two ports, the high one to the first.
    pub fn latch_word(&self, port: u8) -> u16
        requires { port < 255 }
        ensures { result ≡ word (slice_index self.now.latches port)
            (slice_index self.now.latches (port + 1)) }
    {
        let place = usize::from(port);
        u16::from(self.latches[place]) * 256 + u16::from(self.latches[place + 1])
    }

    /// The port, where exactly one chip takes a write to it.
    #[inline]
    pub fn if_writable(&self, port: u8) -> Option<u8>
        ensures { result ≡ if_writable self.now port }
    {
        if self.writable[usize::from(port)] {
            Some(port)
        } else {
            None
        }
    }

    /// Keeps the byte of a write that was taken.
    #[inline]
    pub fn take(&mut self, taken: Option<PortByte>)
        ensures { (phi : ℕ) → self.new ≡ ports_after (clocked phi taken) self.old }
    {
        if let Some(PortByte { port, byte }) = taken {
            self.latches[usize::from(port)] = byte;
        }
    }

    /// Sets the key byte of a port.
    #[inline]
    pub fn set_key(&mut self, port: u8, byte: u8)
        ensures { self.new ≡ with_key_byte port byte self.old }
    {
        self.keys[usize::from(port)] = byte;
    }
}

/// Which ports are data ports of exactly one chip.
fn readable_ports(map: &Map) -> [bool; 256]
    ensures { AreReadable map.now result }
{
    let mut readable = [false; 256];
    for port in 0..256 {
        readable[port] = map.reads(port as u8) == 1;
    }
    readable
}

/// Which ports exactly one chip has.
fn writable_ports(map: &Map) -> [bool; 256]
    ensures { AreWritable map.now result }
{
    let mut writable = [false; 256];
    for port in 0..256 {
        writable[port] = map.writes(port as u8) == 1;
    }
    writable
}
