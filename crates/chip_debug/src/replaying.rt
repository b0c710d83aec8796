// Doing the entries of a tape again from power-on, up to an instruction, with a look at each on the way.
ghost use Rattle.std.specs.Prelude.{◌≡◌, ◌≤◌, ◌+◌, IfSome, List, length, map, sum_by, None, [], if◌then◌else◌};
ghost use Rattle.f8_spec.specs.ChipState.{ChipView};
ghost use Rattle.data_bus.specs.Racks.{views};
ghost use Rattle.f8_machine.specs.Fitting.{Fits};
ghost use Rattle.probe.specs.ProbeState.{probe_counters};
ghost use Rattle.rewind.specs.Asking.{allowed_since_power};
ghost use Rattle.rewind.specs.LogEntries.{instructions_in};
ghost use Rattle.rewind.specs.Standing.{patches};
ghost use Rattle.rewind.specs.Tape.{IsTaped, come, entries_of, is_begun, mode_rewound};
ghost use Rattle.chip_debug.specs.Searching.{IsReplayed, log_replayed, sought_allowed};
ghost use Rattle.chip_debug.specs.Stepping.{is_store as is_stored, upto};

use super::breaks::Breaks;
use super::meeting::is_met;
use chip_face::{Chip, MOST_CHIPS};
use f8_machine::{Heard, Machine, Rack};
use rack_run::Halt;
use rewind::Tape;
use romc_table::Romc;

/// What is looked for among instructions that are done again.
#[derive(Clone, Copy, Debug, PartialEq, Eq)]
pub(crate) enum Sought {
    Nothing,

    /// One from this number on, counted from 1, that meets a break.
    Break { from: u32, breaks: Breaks },

    /// One that stores at this address.
    Store { at: u16 },
}

/// A bus step is a store that a socket took.
fn is_store(step: &Heard) -> bool
    ensures { result ≡ is_stored step.now }
{
    step.romc.number() == Romc::STORE_DATA.number() && step.taker.is_some()
}

impl Sought {
    ghost use Rattle.chip_debug.specs.Searching.{is_this};

    /// The instruction of this number is looked for. It had these bus steps, and stored at this address, if it did; it led the machine and
    /// its chips here.
    fn is(self, place: u32, at: u16, steps: &[Heard], machine: &Machine, rack: &mut Rack) -> bool
        requires few { length rack.old.items ≤ MOST_CHIPS }
        ensures is { result ≡ is_this self place at steps.now machine.now.flow.p
            (probe_counters machine.now.probe) machine.now.chain
            (views (map state rack.old.items)) }
        ensures stays { map state rack.new.items ≡ map state rack.old.items }
        ensures asked { sum_by queries rack.new.items ≤ sum_by queries rack.old.items
            + sought_allowed self machine.now.chain }
        ensures chips { length rack.new.items ≡ length rack.old.items }
    {
        match self {
            Sought::Nothing => false,
            Sought::Break { from, breaks } => from <= place && is_met(breaks, steps, machine, rack),
            Sought::Store { at: wanted } => at == wanted && steps.iter().any(|step| is_store(step)),
        }
    }
}

/// Rewinds a tape, does so many instructions again, of which there must be as many, and answers the last of them that is looked for.
pub(crate) fn replay(tape: &mut Tape, count: u32, sought: Sought, rack: &mut Rack) -> Option<u32>
    requires few { length rack.old.items ≤ MOST_CHIPS }
    requires within { count ≤ instructions_in (entries_of tape.old.log) }
    ensures replayed { (first : List ChipView) → IsTaped tape.old (map state rack.old.items) first →
        IsReplayed sought count result tape.old tape.new (map state rack.new.items) first
        (sum_by queries rack.old.items) (sum_by queries rack.new.items) }
    ensures most { IfSome result (λ n. n ≤ count) }
    ensures tape { tape.new ≡ record tape.old {
      machine = tape.new.machine;
      log = tape.new.log;
      mode = mode_rewound tape.old.mode;
    } }
    ensures log { log_replayed count tape.old.log tape.new.log }
    ensures chain { tape.new.machine.chain ≡ tape.old.machine.chain }
    ensures patches { patches (map state rack.new.items) ≡ patches (map state rack.old.items) }
    ensures fits { Fits tape.new.machine (map state rack.new.items) }
    ensures chips { length rack.new.items ≡ length rack.old.items }
{
    tape.rewind(rack);
    let mut found = None;
    for done in 0..count {
        let at = tape.machine().reference().dc0;
        let Some(outcome) = tape.forward(rack) else {
            return found;
        };
        if sought.is(done + 1, at, outcome.steps(), tape.machine(), rack) {
            found = Some(done + 1);
        }
    }
    found
}

/// Goes back to the end of an instruction, counted from 1, or to 0. What came later is dropped, and so is a stop, but for one of reset.
pub(crate) fn go_back(tape: &mut Tape, halt: &mut Option<Halt>, place: u32, rack: &mut Rack)
    requires few { length rack.old.items ≤ MOST_CHIPS }
    requires within { place ≤ instructions_in (entries_of tape.old.log) }
    ensures taped { (first : List ChipView) → IsTaped tape.old (map state rack.old.items) first →
        IsTaped tape.new (map state rack.new.items) first }
    ensures asked { (first : List ChipView) → IsTaped tape.old (map state rack.old.items) first →
        sum_by queries rack.new.items ≤ sum_by queries rack.old.items
        + allowed_since_power (come tape.new first) }
    ensures tape { tape.new ≡ record tape.old {
      machine = tape.new.machine;
      log = record { played = upto place (entries_of tape.old.log); left = []; spare = tape.new.log.spare };
      mode = mode_rewound tape.old.mode;
    } }
    ensures spare { tape.old.log.spare ≤ tape.new.log.spare }
    ensures halt { halt.new ≡ (if is_begun tape.old.mode then None else halt.old) }
    ensures chain { tape.new.machine.chain ≡ tape.old.machine.chain }
    ensures patches { patches (map state rack.new.items) ≡ patches (map state rack.old.items) }
    ensures fits { Fits tape.new.machine (map state rack.new.items) }
    ensures chips { length rack.new.items ≡ length rack.old.items }
{
    let _ = replay(tape, place, Sought::Nothing, rack);
    tape.cut();
    if tape.is_begun() {
        *halt = None;
    }
}
