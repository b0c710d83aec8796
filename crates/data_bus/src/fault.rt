// Why a bus step isn't served.
ghost use Rattle.std.specs.Prelude.{◌≡◌};

use super::Parties;
use romc_table::Romc;

/// Why a bus step isn't served. That such a step is refused is this project's own rule.
#[derive(Debug, Drop)]
pub enum BusFault {
    /// Several chips drive, or take.
    Conflict {
        /// The code of the step.
        romc: Romc,

        /// The chips by ascending sockets, each with the address in its own counter, or with the port.
        parties: Parties,
    },

    /// No chip drives.
    Undriven {
        /// The code of the step.
        romc: Romc,

        /// The address in the probe's counter, or the port.
        at: u16,
    },

    /// One chip drives or takes away from the probe; or another chip holds the probe's address, in a store in RAM, and does neither.
    Astray {
        /// The code of the step.
        romc: Romc,

        /// The chip's socket.
        socket: u8,

        /// The address in the chip's own counter.
        at: u16,

        /// The address in the probe's counter.
        reference: u16,
    },
}

impl BusFault {
    ghost use Rattle.data_bus.specs.Steps.{fault_number};

    /// The same fault.
    pub fn copy(&self) -> BusFault
        ensures { result ≡ self.now }
    {
        match self {
            BusFault::Conflict { romc, parties } => BusFault::Conflict {
                romc: *romc,
                parties: parties.copy(),
            },
            BusFault::Undriven { romc, at } => BusFault::Undriven {
                romc: *romc,
                at: *at,
            },
            BusFault::Astray {
                romc,
                socket,
                at,
                reference,
            } => BusFault::Astray {
                romc: *romc,
                socket: *socket,
                at: *at,
                reference: *reference,
            },
        }
    }

    /// The number of the cause: 1 for `Conflict`, 2 for `Undriven`, 3 for `Astray`.
    pub fn number(&self) -> u8
        ensures { result ≡ fault_number self.now }
    {
        match self {
            BusFault::Conflict { .. } => 1,
            BusFault::Undriven { .. } => 2,
            BusFault::Astray { .. } => 3,
        }
    }
}
