// A bus step: its length, who drives its byte, what comes of it, and the counters.
/// The clocks of a short bus step, in Φ (Mostek 3850 data sheet).
pub const SHORT_STEP_PHI: u8 = 4;

/// The clocks of a long bus step, in Φ (Mostek 3850 data sheet).
pub const LONG_STEP_PHI: u8 = 6;

/// Who puts the byte of a bus step on the data bus (Mostek 3850, 3851 and 3853 data sheets, ROMC states).
#[derive(Clone, Copy, Debug, PartialEq, Eq)]
pub enum Driver {
    /// The storage chip that holds the address in the step's counter.
    Memory,
    /// The storage chip that holds the address in the step's counter, with a byte of that counter.
    CounterByte,
    /// The chip whose interrupt is acknowledged, with a byte of its vector.
    Vector,
    /// The chip that has the port as a data port.
    Port,
    /// The 3850.
    Cpu,
    /// Nobody: the bus is 00.
    Nobody,
}

/// How a bus step is arbitrated among the chips. That a step is served only where exactly one chip answers in it, at the address
/// of the probe's counter, is this project's own.
#[derive(Clone, Copy, Debug, PartialEq, Eq)]
pub enum BusRule {
    /// The chip that holds the address in its own counter drives the byte: codes 00 to 03, 06, 07, 09, 0B, 0C, 0E, 11, 1E and 1F.
    Read,
    /// The chip whose own data counter lies in its RAM takes the byte: code 05.
    Store,
    /// The chip that has the port as a data port drives the byte: code 1B.
    PortRead,
    /// The chip that has the port takes the byte: code 1A.
    PortWrite,
    /// The chip whose interrupt is acknowledged drives the byte: codes 0F and 13.
    Vector,
    /// No chip drives or takes a byte: all other codes.
    NoChip,
}

/// A chip that drives or takes a byte in a bus step: its socket, and the address in its own counter or the port's number.
#[derive(Clone, Copy, Debug, PartialEq, Eq)]
pub struct Party {
    /// The chip's place in the rack.
    pub socket: u8,

    /// The address in the chip's own counter, or the port.
    pub at: u16,
}

/// The counter by which a bus step goes.
#[derive(Clone, Copy, Debug, PartialEq, Eq)]
pub enum Counter {
    /// The program counter.
    Pc0,
    /// The stack register.
    Pc1,
    /// The data counter.
    Dc0,
    /// None: the step goes by no counter.
    NoCounter,
}

/// The counters of one storage chip, each an address. A 3851 has no second data counter.
#[derive(Clone, Copy, Debug, PartialEq, Eq)]
pub struct Counters {
    /// The program counter.
    pub pc0: u16,

    /// The stack register.
    pub pc1: u16,

    /// The data counter.
    pub dc0: u16,

    /// The second data counter, where the chip has one.
    pub dc1: Option<u16>,
}
