// The ports 0 and 1 of the 3850.
use f8_ops::{OWN_PORTS, Op};
use std::marker::Model;

/// The ports 0 and 1 of the 3850, which only its own `INS` and `OUTS` reach: the byte that `OUTS` last put into each, and the key byte of
/// each, which comes from outside. Contracts see the bytes.
#[derive(Debug, Drop)]
pub(crate) struct OwnPorts {
    latches: [u8; OWN_PORTS as usize],
    keys: [u8; OWN_PORTS as usize],
}

impl Model for OwnPorts {
    ghost use Rattle.std.specs.Prelude.{◌≡◌, length};
    ghost use Rattle.cpu3850.specs.CpuPorts.{PortBytes};

    ghost Value = { PortBytes };

    ghost view = { λ p. record { latches = p.latches; keys = p.keys } };

    ghost invariant = { λ p. (length p.latches ≡ 2) × (length p.keys ≡ 2) };
}

impl OwnPorts {
    ghost use Rattle.std.specs.Prelude.{◌≡◌, ◌<◌};
    ghost use Rattle.cpu3850.specs.CpuPorts.{clear_ports, own_byte, with_own_key, read_by, put_by};

    pub(crate) fn power() -> OwnPorts
        ensures { result ≡ clear_ports }
    {
        OwnPorts {
            latches: [0; OWN_PORTS as usize],
            keys: [0; OWN_PORTS as usize],
        }
    }

    pub(crate) fn latches(&self) -> [u8; OWN_PORTS as usize]
        ensures { result ≡ self.now.latches }
    {
        self.latches
    }

    pub(crate) fn set_latches(&mut self, latches: [u8; OWN_PORTS as usize])
        ensures { self.new ≡ record self.old { latches = latches } }
    {
        self.latches = latches;
    }

    pub(crate) fn set_key(&mut self, port: u8, byte: u8)
        requires { port < 2 }
        ensures { self.new ≡ with_own_key port byte self.old }
    {
        self.keys[usize::from(port)] = byte;
    }

    fn byte(&self, port: u8) -> u8
        requires { port < 2 }
        ensures { result ≡ own_byte port self.now }
    {
        let port = usize::from(port);
        self.latches[port] | self.keys[port]
    }

    /// The byte that an instruction works with, where this one is on the bus.
    pub(crate) fn read(&self, op: Op, byte: u8) -> u8
        ensures { result ≡ read_by op byte self.now }
    {
        match op {
            Op::Ins { n } if n < OWN_PORTS => self.byte(n),
            _ => byte,
        }
    }

    /// An instruction puts the accumulator into a latch, or leaves the ports.
    pub(crate) fn put(&mut self, op: Op, accumulator: u8)
        ensures { self.new ≡ put_by op accumulator self.old }
    {
        match op {
            Op::Outs { n } if n < OWN_PORTS => self.latches[usize::from(n)] = accumulator,
            _ => {}
        }
    }
}
