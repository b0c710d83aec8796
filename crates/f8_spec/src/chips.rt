// Chips on the bus: their kinds, their pages, how one is powered on, and the byte that one offers.
/// The kinds of chip that answer on the bus.
#[derive(Clone, Copy, Debug, PartialEq, Eq)]
pub enum ChipKind {
    /// The 3851, program storage unit: 1,024 bytes of ROM, two data ports, one data counter.
    Psu,
    /// The 3853, static memory interface: pages of memory, no data port, two data counters.
    Smi,
    /// The 3861, peripheral input and output: two data ports, no memory, no counter.
    Pio,
}

/// What a page of 256 bytes is.
#[derive(Clone, Copy, Debug, PartialEq, Eq)]
pub enum PageSort {
    /// Bytes that stay.
    Rom,
    /// Bytes that stores change.
    Ram,
    /// Held, but empty: reads as 255, and stores are lost.
    Void,
}

/// A page of 256 bytes in a chip's space: the addresses whose high byte is `number`.
#[derive(Clone, Copy, Debug, PartialEq, Eq)]
pub struct Page {
    /// The high byte of the page's addresses.
    pub number: u8,

    /// What the page is.
    pub sort: PageSort,
}

/// How a chip is powered on where its description says so. What isn't said is that of all chips: the power byte, and an address by the
/// socket. That a chip may differ is this project's own.
#[derive(Clone, Copy, Debug, PartialEq, Eq)]
pub struct PowerOn {
    /// The byte in all its RAM.
    pub fill: Option<u8>,

    /// The address at which its counters stand.
    pub start: Option<u16>,
}

/// What a chip offers in a bus step: the byte that it would drive, and the copy, port or vector by which it answers.
#[derive(Clone, Copy, Debug, PartialEq, Eq)]
pub struct Offer {
    /// The byte that the chip would drive, and 00 where it takes one.
    pub byte: u8,

    /// The address in the chip's own counter, the port, or the vector.
    pub at: u16,
}
