// The ports of a chip.
ghost use Rattle.std.specs.Prelude.{◌≡◌, ◌≤◌, All, length, None};
ghost use Rattle.f8_spec.specs.BusArbitration.{seat_of, seat_has_data_port, seat_has_port};
ghost use Rattle.console_spec.specs.Writes.{readers, takers};
ghost use Rattle.chip_face.specs.Fitting.{IsSpec, fitted};
ghost use Rattle.memory_map.specs.MapOf.{seats_of};
ghost use Rattle.memory_map.specs.MapPorts.{AreReaders, AreTakers};

use chip_face::{ChipSpec, MOST_CHIPS};

/// A chip has a port as a data port. Of the four ports of a 3851 and of a 3861 those are the first two; a 3853 has none.
fn has_data_port(chip: &ChipSpec, port: u8) -> bool
    requires { IsSpec chip.now }
    ensures { result ≡ seat_has_data_port (seat_of (fitted None chip.now)) port }
{
    match chip {
        ChipSpec::Psu { ports, .. } | ChipSpec::Pio { ports, .. } => {
            port >= *ports && port - *ports < 2
        },
        ChipSpec::Blank(_) | ChipSpec::Smi { .. } => false,
    }
}

/// A chip has a port, whatever it is to the chip.
fn has_port(chip: &ChipSpec, port: u8) -> bool
    requires { IsSpec chip.now }
    ensures { result ≡ seat_has_port (seat_of (fitted None chip.now)) port }
{
    match chip.first_port() {
        Some(first) => port >= first && port - first < 4,
        None => false,
    }
}

/// How many chips have a port as a data port.
fn readers(chips: &[ChipSpec], port: u8) -> u8
    requires few { length chips.now ≤ MOST_CHIPS }
    requires specified { All IsSpec chips.now }
    ensures { result ≡ readers port (seats_of chips.now) }
{
    let mut count = 0;
    for chip in chips {
        if has_data_port(chip, port) {
            count += 1;
        }
    }
    count
}

/// How many chips have a port.
fn takers(chips: &[ChipSpec], port: u8) -> u8
    requires few { length chips.now ≤ MOST_CHIPS }
    requires specified { All IsSpec chips.now }
    ensures { result ≡ takers port (seats_of chips.now) }
{
    let mut count = 0;
    for chip in chips {
        if has_port(chip, port) {
            count += 1;
        }
    }
    count
}

/// For each port how many chips have it as a data port.
pub fn all_readers(chips: &[ChipSpec]) -> [u8; 256]
    requires few { length chips.now ≤ MOST_CHIPS }
    requires specified { All IsSpec chips.now }
    ensures { AreReaders chips.now result }
{
    let mut counts = [0; 256];
    for port in 0..256 {
        counts[port] = readers(chips, port as u8);
    }
    counts
}

/// For each port how many chips have it.
pub fn all_takers(chips: &[ChipSpec]) -> [u8; 256]
    requires few { length chips.now ≤ MOST_CHIPS }
    requires specified { All IsSpec chips.now }
    ensures { AreTakers chips.now result }
{
    let mut counts = [0; 256];
    for port in 0..256 {
        counts[port] = takers(chips, port as u8);
    }
    counts
}
