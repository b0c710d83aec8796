// A bus step as the CPU asks for it, and what it answers where it is served.
use romc_table::Romc;

/// A bus step as the CPU asks for it.
#[derive(Clone, Copy, Debug, PartialEq, Eq)]
pub struct Cycle {
    /// Its code.
    pub romc: Romc,

    /// A long step lasts 6 Φ, and a short one 4.
    pub long: bool,

    /// The byte that the CPU drives, where it does.
    pub byte: u8,

    /// The socket of the chip whose interrupt is acknowledged, in the codes 0F and 13.
    pub first: Option<u8>,
}

/// A served bus step.
#[derive(Clone, Copy, Debug, PartialEq, Eq)]
pub struct Served {
    /// The byte on the bus.
    pub byte: u8,

    /// The socket of the chip that drove it, or took it in a store and a port write. `None` where no chip did.
    pub socket: Option<u8>,
}
