// What a chip tells of itself, as text.
use super::words::spelled;
use chip_face::Chip;
use data_bus::Rack;
use romc_table::Counters;
use std::alloc::Global;
use std::test::Fail;

pub(crate) fn told_counters(alloc: Global, counters: Counters) -> Result<String, Fail> {
    let Counters { pc0, pc1, dc0, dc1 } = counters;
    match dc1 {
        Some(dc1) => Ok(format!(in alloc; "{pc0:04X} {pc1:04X} {dc0:04X} {dc1:04X}")?),
        None => Ok(format!(in alloc; "{pc0:04X} {pc1:04X} {dc0:04X}")?),
    }
}

fn told_byte(alloc: Global, byte: Option<u8>) -> Result<String, Fail> {
    match byte {
        Some(byte) => Ok(format!(in alloc; "{byte:02X}")?),
        None => Ok(format!(in alloc; "none")?),
    }
}

/// What a chip tells of a word, and of an address or a port behind it.
fn told_by(
    alloc: Global,
    chip: &mut Box<dyn Chip>,
    word: &str,
    numbers: &[u16],
) -> Result<String, Fail> {
    match (word, numbers) {
        ("counters", []) => told_counters(alloc, chip.counters()),
        ("byte", [address]) => told_byte(alloc, chip.peek(*address)),
        ("latch", [port]) => told_byte(alloc, chip.latch(u8::try_from(*port)?)),
        _ => Err(word.into()),
    }
}

/// What the chip in a socket tells.
pub(crate) fn told_of(alloc: Global, rack: &mut Rack, what: &str) -> Result<String, Fail> {
    let (word, numbers) = spelled(alloc, what)?;
    match numbers.as_slice() {
        [socket, rest @ ..] => {
            let chip = rack.get_mut(usize::from(*socket)).ok_or(what)?;
            told_by(alloc, chip, word, rest)
        }
        [] => Err(what.into()),
    }
}
