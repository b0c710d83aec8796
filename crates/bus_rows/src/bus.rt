// The bus of a rack: a probe, and where steps go by one an index.
ghost use Rattle.std.specs.Prelude.{◌≡◌, ◌≤◌, ◌<◌, length, map};
ghost use Rattle.f8_spec.specs.ChipState.{TakesPulse};
ghost use Rattle.data_bus.specs.Racks.{ChosenAsks, NumberedZip};
ghost use Rattle.bus_rows.specs.Indexed.{FitsIndexed, HasAddresses};

use chip_face::{Chip, MOST_CHIPS};
use data_bus::{BusFault, Cycle, Index, Rack, Served, step, step_by};
use probe::Probe;

/// By what steps find the chips that they ask.
#[derive(Clone, Copy)]
pub(crate) enum Way {
    /// By none: every chip is asked.
    EveryChip,

    /// By an index of pages.
    ByIndex,
}

/// Both.
pub(crate) const WAYS: [Way; 2] = [Way::EveryChip, Way::ByIndex];

/// What a rack's bus steps need beside the chips.
#[derive(Drop)]
pub(crate) struct Bus {
    pub(crate) probe: Probe,

    /// Where steps go by one.
    index: Option<Index>,
}

/// Power-on of a chip, at an address in every counter.
fn power_at(chip: &mut Box<dyn Chip>, start: u16)
    ensures { HasAddresses 0 (state chip.old) (state chip.new) }
{
    chip.power(0, start);
}

/// Power-on of every chip, each at its address.
fn power_all(rack: &mut Rack, starts: &[u16])
    requires few { length rack.old.items ≤ MOST_CHIPS }
    ensures powered { NumberedZip HasAddresses 0 (map state rack.old.items) (map state rack.new.items) }
    ensures chips { length rack.new.items ≡ length rack.old.items }
{
    for (socket, chip) in rack.iter_mut().enumerate() {
        power_at(chip, starts.get(socket).copied().unwrap_or(0));
    }
}

impl Bus {
    /// The bus of a rack, whose chips are powered on, each at its address.
    pub(crate) fn of(rack: &mut Rack, starts: &[u16], way: Way) -> Bus
        requires few { length rack.old.items ≤ MOST_CHIPS }
        ensures fits { FitsIndexed result.index result.probe (map state rack.new.items) }
    {
        power_all(rack, starts);
        let probe = Probe::new();
        match way {
            Way::EveryChip => Bus { probe, index: None },
            Way::ByIndex => {
                let index = Index::of(rack);
                Bus {
                    probe,
                    index: Some(index),
                }
            }
        }
    }

    /// One bus step.
    pub(crate) fn step(&mut self, rack: &mut Rack, cycle: Cycle) -> Result<Served, BusFault>
        requires few { length rack.old.items ≤ MOST_CHIPS }
        requires chosen { ChosenAsks cycle.romc cycle.first (map state rack.old.items) }
        requires fits { FitsIndexed self.old.index self.old.probe (map state rack.old.items) }
        ensures fits { FitsIndexed self.new.index self.new.probe (map state rack.new.items) }
    {
        match &mut self.index {
            Some(index) => step_by(rack, &mut self.probe, index, cycle),
            None => step(rack, &mut self.probe, cycle),
        }
    }
}

/// A pulse to a chip.
fn pulse_at(chip: &mut Box<dyn Chip>)
    ensures { TakesPulse (state chip.old) (state chip.new) }
{
    chip.pulse();
}

/// A pulse to the chip in a socket.
pub(crate) fn pulse(rack: &mut Rack, bus: &Bus, socket: usize)
    requires seated { socket < length rack.old.items }
    requires fits { FitsIndexed bus.now.index bus.now.probe (map state rack.old.items) }
    ensures fits { FitsIndexed bus.now.index bus.now.probe (map state rack.new.items) }
{
    pulse_at(&mut rack[socket]);
}
