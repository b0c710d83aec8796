// The keys of a description, and their words.
ghost use Rattle.std.specs.Prelude.{◌≡◌};
ghost use Rattle.cartridge.specs.Keys.{key_word};

/// The keys of a description, those at its top first and then those of a chip.
#[derive(Clone, Copy, Debug, PartialEq, Eq)]
pub enum Key {
    /// The number of the form that the description has.
    Format,
    /// The registers that the checker tracks.
    Split,
    /// The list of chips.
    Chip,
    /// The kind of a chip.
    Kind,
    /// The first address of a chip.
    Base,
    /// The first port of a chip.
    Ports,
    /// The interrupt vector of a chip.
    Vector,
    /// The first ROM page of a chip.
    RomPage,
    /// The number of ROM pages of a chip.
    RomPages,
    /// The first RAM page of a chip.
    RamPage,
    /// The number of RAM pages of a chip.
    RamPages,
    /// The first page of a chip in which nothing is.
    VoidPage,
    /// The number of pages of a chip in which nothing is.
    VoidPages,
    /// The pages of a chip, as texts.
    Pages,
    /// The chip can ask for an interrupt.
    Interrupt,
    /// The byte that all RAM of a chip has at power-on.
    Fill,
    /// The address at which the counters of a chip stand at power-on.
    Start,
    /// The bytes of a chip's ROM, in hexadecimal digits.
    Rom,
    /// The name of the file that a chip's ROM is assembled from.
    Source,
    /// A key that the table doesn't know.
    Other,
}

impl Key {
    /// How the key is spelled, and `?` for the keys that no table knows.
    pub fn word(self) -> &'static str
        ensures { result.now ≡ key_word self }
    {
        match self {
            Key::Format => "format",
            Key::Split => "split",
            Key::Chip => "chip",
            Key::Kind => "kind",
            Key::Base => "base",
            Key::Ports => "ports",
            Key::Vector => "vector",
            Key::RomPage => "rom_page",
            Key::RomPages => "rom_pages",
            Key::RamPage => "ram_page",
            Key::RamPages => "ram_pages",
            Key::VoidPage => "void_page",
            Key::VoidPages => "void_pages",
            Key::Pages => "pages",
            Key::Interrupt => "interrupt",
            Key::Fill => "fill",
            Key::Start => "start",
            Key::Rom => "rom",
            Key::Source => "source",
            Key::Other => "?",
        }
    }
}
