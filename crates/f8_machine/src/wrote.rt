//! The port write of an instruction that is done.
ghost use Rattle.std.specs.Prelude.{◌≡◌};
ghost use Rattle.f8_spec.specs.Instructions.{decoded};
ghost use Rattle.f8_machine.specs.PortWrites.{chip_write, done_write};

use super::heard::Heard;
use console_spec::PortWrite;
use f8_ops::{OWN_PORTS, Op, decode};
use romc_table::Romc;

/// The write that a chip took, in the steps of an instruction that is done: the step before it has named the port.
fn chip_write(phi: u64, steps: &[Heard]) -> Option<PortWrite>
    ensures { result ≡ chip_write phi steps.now }
{
    match steps {
        [named, put, ..] if put.romc == Romc::WRITE_PORT => put.taker.map(|_| PortWrite {
            phi,
            port: named.byte,
            byte: put.byte,
        }),
        _ => None,
    }
}

/// The opcodes of `OUTS` lie between these.
const FIRST_OUTS: u8 = 0xB0;

const LAST_OUTS: u8 = 0xBF;

/// The write of an instruction that is done, by its opcode, the clocks at its end, the processor's own latches then, and its steps.
pub(crate) fn done_write(code: u8, phi: u64, latches: [u8; 2], steps: &[Heard]) -> Option<PortWrite>
    ensures { result ≡ done_write (decoded code) phi latches steps.now }
{
    // Nearly all instructions are others, and aren't decoded again for it.
    if code < FIRST_OUTS || LAST_OUTS < code {
        return chip_write(phi, steps);
    }
    match decode(code) {
        Ok(Op::Outs { n }) if n < OWN_PORTS => Some(PortWrite {
            phi,
            port: n,
            byte: latches[usize::from(n)],
        }),
        _ => chip_write(phi, steps),
    }
}
