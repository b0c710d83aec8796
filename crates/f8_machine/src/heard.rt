//! A bus step as a trace tells it.
ghost use Rattle.std.specs.Prelude.{◌≡◌};
ghost use Rattle.f8_spec.specs.BusArbitration.{rule_of};
ghost use Rattle.console_spec.specs.BusTrace.{taker_by, who_by};

use console_spec::Who;
use romc_table::{Driver, Romc};

/// A served bus step as a trace tells it: its code, whether it is a long one, of 6 Φ in place of 4, and its byte.
#[derive(Clone, Copy, Debug, PartialEq, Eq)]
pub struct Heard {
    pub romc: Romc,
    pub long: bool,
    pub byte: u8,

    /// Who drove the byte.
    pub who: Who,

    /// The socket of the chip that took the byte, in a store and in a port write.
    pub taker: Option<u8>,
}

/// Who drove the byte of a step that was served, by the chip in a socket where a chip drives.
pub(crate) fn who_drove(driver: Driver, socket: Option<u8>) -> Who
    ensures { result ≡ who_by driver socket }
{
    match driver {
        Driver::Memory | Driver::CounterByte | Driver::Vector | Driver::Port => match socket {
            Some(socket) => Who::Socket(socket),
            None => Who::Nobody,
        },
        Driver::Cpu => Who::Cpu,
        Driver::Nobody => Who::Nobody,
    }
}

/// The socket of the chip that takes the byte of a step.
#[tactic(auto, using(crate::proofs::BusAnswers::taker_none))]
pub(crate) fn taker(romc: Romc, socket: Option<u8>) -> Option<u8>
    ensures { result ≡ taker_by (rule_of romc) socket }
{
    if romc == Romc::STORE_DATA || romc == Romc::WRITE_PORT {
        socket
    } else {
        None
    }
}
