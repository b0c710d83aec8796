// How the program ends.
/// How the program ends, with its exit status.
#[derive(Clone, Copy)]
pub enum Status {
    /// All that was asked for is done.
    Done = 0,
    /// The words are none of the program's.
    Words = 1,
    /// A file is refused, or the rack has no place for the chips that are described.
    Input = 2,
    /// A bus step wasn't served.
    Fault = 3,
    /// The store failed.
    Store = 4,
    /// The sink failed.
    Sink = 5,
    /// Memory was wanting, and nothing was written.
    Memory = 6,
    /// A cartridge can't be shown to be safe.
    NoVerdict = 7,
    /// A reserved opcode was met.
    Reserved = 8,
    /// The system didn't give the words.
    NoWords = 10,
}

impl Status {
    ghost use Rattle.std.specs.Prelude.{◌≡◌};
    ghost use Rattle.channel_f.specs.Statuses.{exit_code};

    /// The number of the status.
    pub fn code(self) -> u8
        ensures { result ≡ exit_code self }
    {
        self as u8
    }
}
