// The tape: a machine on its rack, with the log of what was done since power-on, so that it can be done again.
ghost use Rattle.std.specs.Prelude.{◌≡◌};
ghost use Rattle.rewind.specs.Tape.{mode_begun, mode_faulted, mode_rewound};

use super::entry::Entry;
use super::happening::happen;
use super::log::Log;
use super::starting::start_machine;
use super::tape_mode::TapeMode;
use chip_face::{Chip, MOST_CHIPS, Powers};
use console_spec::Event;
use f8_machine::{Chain, Machine, Outcome, Rack};
use f8_ops::RESET_PHI;
use f8_spec::Memory;
use std::alloc::Global;
use std::marker::Model;

/// Whether reset was done, by its outcome.
fn begun_by(outcome: &Outcome) -> TapeMode
    ensures { result ≡ mode_begun outcome.now }
{
    match outcome {
        Outcome::Done { .. } => TapeMode::Going,
        Outcome::Fault { .. } | Outcome::Reserved { .. } => TapeMode::Unbegun,
    }
}

impl TapeMode {
    // A fault stops a machine that went on.
    fn faulted(self) -> TapeMode
        ensures { result ≡ mode_faulted self }
    {
        match self {
            TapeMode::Going | TapeMode::Faulted => TapeMode::Faulted,
            TapeMode::Unbegun => TapeMode::Unbegun,
        }
    }

    // Before all entries no fault has stopped it.
    fn rewound(self) -> TapeMode
        ensures { result ≡ mode_rewound self }
    {
        match self {
            TapeMode::Going | TapeMode::Faulted => TapeMode::Going,
            TapeMode::Unbegun => TapeMode::Unbegun,
        }
    }
}

/// A machine on a rack of chips that is lent to each call, with all that was done since power-on: key bytes, pulses, and instructions that
/// are done. It can be rewound, and is then done again entry by entry.
///
/// The rack lent must be the one that the last call left: each chip as it was, with its patch. Contracts say so by `IsTaped`, which holds
/// after each call if it held before, and which says where the machine and the chips are: where the entries that were played lead from
/// power-on and reset of the chips as they were at first. Index and questions put may differ when entries are done again. Contracts see a
/// `TapeState`.
#[derive(Debug, Drop)]
pub struct Tape {
    machine: Machine,

    /// The power byte.
    fill: u8,

    /// How the chips described are powered on, in the order of the description.
    powers: Powers,
    log: Log,
    mode: TapeMode,
}

impl Model for Tape {
    ghost use Rattle.rewind.specs.Tape.{TapeState, IsInTime};

    ghost Value = { TapeState };

    ghost view = { λ t. record {
      machine = t.machine;
      fill = t.fill;
      powers = t.powers;
      log = t.log;
      mode = t.mode;
    } };

    ghost invariant = { λ t. IsInTime t.machine t.log };
}

impl Tape {
    ghost use Rattle.std.specs.Prelude.{◌≡◌, ◌≤◌, ◌<◌, ◌+◌, ◌∷◌, ◌++◌, [], List, length, map, sum_by, IfOk, IfSome};
    ghost use Rattle.std.specs.Prelude.{IfNone, OnErr, slice_get};
    ghost use Rattle.f8_spec.specs.BusArbitration.{seat_of};
    ghost use Rattle.f8_spec.specs.ChipState.{ChipState, ChipView};
    ghost use Rattle.cpu3850.specs.OwnWrites.{LeaveOwnPorts};
    ghost use Rattle.data_bus.specs.Racks.{views};
    ghost use Rattle.f8_machine.specs.Fitting.{Fits};
    ghost use Rattle.f8_machine.specs.HeardSteps.{HaveBytes};
    ghost use Rattle.f8_machine.specs.Keying.{RackKeyed, keyed_machine};
    ghost use Rattle.f8_machine.specs.MachineState.{steps_in};
    ghost use Rattle.f8_machine.specs.Refinement.{AreWhole};
    ghost use Rattle.f8_machine.specs.RequestsHeld.{RackPulsed};
    ghost use Rattle.console_spec.specs.declared.Event.TheVariants.{Keys, Pulse};
    ghost use Rattle.rewind.specs.Asking.{AsksBetween, allowed_since_power};
    ghost use Rattle.rewind.specs.LogEntries.{events_in, instructions_in};
    ghost use Rattle.rewind.specs.PowerAlike.{PowerAlike};
    ghost use Rattle.rewind.specs.Standing.{HasReached, IsReady, patches};
    ghost use Rattle.rewind.specs.Tape.{Forwards, Instructs, IsForward, IsOutcomeOf, IsStartOf, IsTaped};
    ghost use Rattle.rewind.specs.Tape.{HasCome, begin, come, is_begun, log_with_event, played_from, tape_after};

    /// A tape of a rack of at most 16 chips that is fitted for a cartridge, with the sockets of the chips described and what is said of the
    /// power-on of each: power-on and reset, and the outcome of reset. There is room for so many key bytes and pulses. The chips are put
    /// in all at most 512 questions for each, and the allowances of the bus steps of reset. No chip's patch changes.
    ///
    /// # Errors
    ///
    /// Memory is wanting for the events. Then the rack is as it was, and no chip was put a question.
    pub fn start(
        alloc: Global,
        fill: u8,
        chain: Chain,
        powers: Powers,
        room: u32,
        rack: &mut Rack,
    ) -> Result<(Tape, Outcome), Memory>
        requires few { length rack.old.items ≤ MOST_CHIPS }
        requires whole { AreWhole (map state rack.old.items) }
        requires ports { LeaveOwnPorts (map seat_of (views (map state rack.old.items))) }
        ensures taped { IfOk result (λ begun. IsTaped begun.0 (map state rack.new.items)
            (views (map state rack.old.items))) }
        ensures outcome { IfOk result (λ begun. IsStartOf begun.1
            (begin begun.0 (views (map state rack.old.items)))) }
        ensures tape { IfOk result (λ begun. begun.0 ≡ record {
          machine = begun.0.machine;
          fill = fill;
          powers = powers;
          log = record { played = []; left = []; spare = room };
          mode = mode_begun begun.1;
        }) }
        ensures chain { IfOk result (λ begun. begun.0.machine.chain ≡ chain) }
        ensures asked { IfOk result (λ begun. sum_by queries rack.new.items
            ≤ sum_by queries rack.old.items
            + allowed_since_power (begin begun.0 (views (map state rack.old.items)))) }
        ensures patches { patches (map state rack.new.items) ≡ patches (map state rack.old.items) }
        ensures fits { IfOk result (λ begun. Fits begun.0.machine (map state rack.new.items)) }
        ensures stays { OnErr result (map state rack.new.items ≡ map state rack.old.items) }
        ensures unasked { OnErr result (map queries rack.new.items ≡ map queries rack.old.items) }
        ensures chips { length rack.new.items ≡ length rack.old.items }
    {
        let log = Log::with_room(alloc, room)?;
        let (machine, outcome) = start_machine(fill, chain, &powers, rack);
        let mode = begun_by(&outcome);
        let tape = Tape {
            machine,
            fill,
            powers,
            log,
            mode,
        };
        Ok((tape, outcome))
    }

    /// Power-on with this byte and reset, of the same rack with the same chips described, each as is said of it. All entries are dropped,
    /// and their room is given back. It answers the outcome of reset.
    pub fn power(&mut self, fill: u8, rack: &mut Rack) -> Outcome
        requires few { length rack.old.items ≤ MOST_CHIPS }
        ensures taped { (first : List ChipView) →
            IsTaped self.old (map state rack.old.items) first →
            IsTaped self.new (map state rack.new.items) first }
        ensures outcome { (first : List ChipView) →
            IsTaped self.old (map state rack.old.items) first →
            IsStartOf result (begin self.new first) }
        ensures tape { self.new ≡ record {
          machine = self.new.machine;
          fill = fill;
          powers = self.old.powers;
          log = record {
            played = [];
            left = [];
            spare = self.old.log.spare + events_in (self.old.log.played ++ self.old.log.left);
          };
          mode = mode_begun result;
        } }
        ensures chain { self.new.machine.chain ≡ self.old.machine.chain }
        ensures asked { (first : List ChipView) →
            IsTaped self.old (map state rack.old.items) first →
            sum_by queries rack.new.items ≤ sum_by queries rack.old.items
            + allowed_since_power (begin self.new first) }
        ensures patches { patches (map state rack.new.items) ≡ patches (map state rack.old.items) }
        ensures fits { Fits self.new.machine (map state rack.new.items) }
        ensures chips { length rack.new.items ≡ length rack.old.items }
    {
        self.fill = fill;
        let outcome = self.start_again(rack);
        self.log.clear();
        self.mode = begun_by(&outcome);
        outcome
    }

    // Power-on with the power byte and reset, of the same rack. The log and the mode are left to the caller.
    fn start_again(&mut self, rack: &mut Rack) -> Outcome
        requires few { length rack.old.items ≤ MOST_CHIPS }
        ensures there { (first : List ChipView) → IsReady (map state rack.old.items) →
            PowerAlike (views (map state rack.old.items)) first →
            HasReached self.new.machine (map state rack.new.items) (begin self.new first) }
        ensures outcome { (first : List ChipView) → IsReady (map state rack.old.items) →
            PowerAlike (views (map state rack.old.items)) first →
            IsStartOf result (begin self.new first) }
        ensures alike { (first : List ChipView) →
            PowerAlike (views (map state rack.old.items)) first →
            PowerAlike (views (map state rack.new.items)) first }
        ensures tape { self.new ≡ record self.old { machine = self.new.machine } }
        ensures chain { self.new.machine.chain ≡ self.old.machine.chain }
        ensures clocks { self.new.machine.phi ≤ RESET_PHI }
        ensures asked { (first : List ChipView) → IsReady (map state rack.old.items) →
            PowerAlike (views (map state rack.old.items)) first →
            sum_by queries rack.new.items ≤ sum_by queries rack.old.items
            + allowed_since_power (begin self.new first) }
        ensures patches { patches (map state rack.new.items) ≡ patches (map state rack.old.items) }
        ensures fits { Fits self.new.machine (map state rack.new.items) }
        ensures chips { length rack.new.items ≡ length rack.old.items }
    {
        let chain = self.machine.chain().copy();
        let (machine, outcome) = start_machine(self.fill, chain, &self.powers, rack);
        self.machine = machine;
        outcome
    }

    /// The next instruction, as the machine carries it out. Where it is done it is added to the entries, which must all have been played and
    /// be fewer than 4,294,967,295 instructions. Where a fault stops the machine, and after that, nothing is added; nor at a reserved
    /// opcode.
    pub fn instr(&mut self, rack: &mut Rack) -> Outcome
        requires few { length rack.old.items ≤ MOST_CHIPS }
        requires ended { self.old.log.left ≡ [] }
        requires count { instructions_in self.old.log.played < 4294967295 }
        requires fits { Fits self.old.machine (map state rack.old.items) }
        ensures taped { (first : List ChipView) →
            IsTaped self.old (map state rack.old.items) first →
            IsTaped self.new (map state rack.new.items) first }
        ensures outcome { (first : List ChipView) → self.old.mode ≡ TapeMode.Going →
            IsTaped self.old (map state rack.old.items) first →
            IsOutcomeOf result (played_from self.old first) }
        ensures tape { self.new ≡ tape_after result self.new.machine self.old }
        ensures machine { Instructs result self.old.machine self.new.machine
            (map state rack.old.items) (map state rack.new.items) }
        ensures bytes { HaveBytes (steps_in result) }
        ensures asked { (first : List ChipView) →
            IsTaped self.old (map state rack.old.items) first →
            AsksBetween (come self.old first) (come self.new first)
            (sum_by queries rack.old.items) (sum_by queries rack.new.items) }
        ensures patches { patches (map state rack.new.items) ≡ patches (map state rack.old.items) }
        ensures fits { Fits self.new.machine (map state rack.new.items) }
        ensures chips { length rack.new.items ≡ length rack.old.items }
    {
        let outcome = self.machine.instr(rack);
        match outcome {
            Outcome::Done { .. } => self.log.add_instruction(),
            Outcome::Fault { .. } => self.mode = self.mode.faulted(),
            Outcome::Reserved { .. } => {}
        }
        outcome
    }

    /// An event, which is added to the entries.
    fn act(&mut self, event: Event, rack: &mut Rack)
        requires few { length rack.old.items ≤ MOST_CHIPS }
        requires ended { self.old.log.left ≡ [] }
        requires room { 0 < self.old.log.spare }
        requires goes { self.old.mode ≡ TapeMode.Going }
        requires fits { Fits self.old.machine (map state rack.old.items) }
        ensures taped { (first : List ChipView) →
            IsTaped self.old (map state rack.old.items) first →
            IsTaped self.new (map state rack.new.items) first }
        ensures tape { self.new ≡ record self.old {
          machine = self.new.machine;
          log = log_with_event event self.old.log;
        } }
        ensures came { HasCome event self.old.machine self.new.machine
            (map state rack.old.items) (map state rack.new.items) }
        ensures asked { map queries rack.new.items ≡ map queries rack.old.items }
        ensures patches { patches (map state rack.new.items) ≡ patches (map state rack.old.items) }
        ensures fits { Fits self.new.machine (map state rack.new.items) }
        ensures chips { length rack.new.items ≡ length rack.old.items }
    {
        happen(&mut self.machine, event, rack);
        self.log.add_event(event);
    }

    /// A key byte from outside, as `Machine::keys`, which is added to the entries. All of them must have been played, there must be room,
    /// the last reset was done, and no instruction since has met a fault.
    pub fn keys(&mut self, rack: &mut Rack, port: u8, byte: u8)
        requires few { length rack.old.items ≤ MOST_CHIPS }
        requires ended { self.old.log.left ≡ [] }
        requires room { 0 < self.old.log.spare }
        requires goes { self.old.mode ≡ TapeMode.Going }
        requires fits { Fits self.old.machine (map state rack.old.items) }
        ensures taped { (first : List ChipView) →
            IsTaped self.old (map state rack.old.items) first →
            IsTaped self.new (map state rack.new.items) first }
        ensures tape { self.new ≡ record self.old {
          machine = keyed_machine port byte self.old.machine;
          log = log_with_event (Keys port byte) self.old.log;
        } }
        ensures keyed { RackKeyed port byte (map state rack.old.items) (map state rack.new.items) }
        ensures asked { map queries rack.new.items ≡ map queries rack.old.items }
        ensures patches { patches (map state rack.new.items) ≡ patches (map state rack.old.items) }
        ensures fits { Fits self.new.machine (map state rack.new.items) }
        ensures chips { length rack.new.items ≡ length rack.old.items }
    {
        self.act(Event::Keys { port, byte }, rack);
    }

    /// A pulse from outside, as `Machine::pulse`, which is added to the entries, on the same conditions.
    pub fn pulse(&mut self, rack: &mut Rack, chip: u8)
        requires few { length rack.old.items ≤ MOST_CHIPS }
        requires ended { self.old.log.left ≡ [] }
        requires room { 0 < self.old.log.spare }
        requires goes { self.old.mode ≡ TapeMode.Going }
        requires fits { Fits self.old.machine (map state rack.old.items) }
        ensures taped { (first : List ChipView) →
            IsTaped self.old (map state rack.old.items) first →
            IsTaped self.new (map state rack.new.items) first }
        ensures tape { self.new
            ≡ record self.old { log = log_with_event (Pulse chip) self.old.log } }
        ensures pulsed { RackPulsed (slice_get self.old.machine.chain chip)
            (map state rack.old.items) (map state rack.new.items) }
        ensures asked { map queries rack.new.items ≡ map queries rack.old.items }
        ensures patches { patches (map state rack.new.items) ≡ patches (map state rack.old.items) }
        ensures fits { Fits self.new.machine (map state rack.new.items) }
        ensures chips { length rack.new.items ≡ length rack.old.items }
    {
        self.act(Event::Pulse { chip }, rack);
    }

    /// Power-on with the power byte and reset, before all entries, which are left to play.
    pub fn rewind(&mut self, rack: &mut Rack)
        requires few { length rack.old.items ≤ MOST_CHIPS }
        ensures taped { (first : List ChipView) →
            IsTaped self.old (map state rack.old.items) first →
            IsTaped self.new (map state rack.new.items) first }
        ensures tape { self.new ≡ record self.old {
          machine = self.new.machine;
          log = record self.old.log {
            played = [];
            left = self.old.log.played ++ self.old.log.left;
          };
          mode = mode_rewound self.old.mode;
        } }
        ensures chain { self.new.machine.chain ≡ self.old.machine.chain }
        ensures asked { (first : List ChipView) →
            IsTaped self.old (map state rack.old.items) first →
            sum_by queries rack.new.items ≤ sum_by queries rack.old.items
            + allowed_since_power (begin self.old first) }
        ensures patches { patches (map state rack.new.items) ≡ patches (map state rack.old.items) }
        ensures fits { Fits self.new.machine (map state rack.new.items) }
        ensures chips { length rack.new.items ≡ length rack.old.items }
    {
        let _ = self.start_again(rack);
        self.log.rewind();
        self.mode = self.mode.rewound();
    }

    /// Does the entries up to the next instruction again, and that one, which is done as it was. `None` where no instruction is left; then
    /// nothing changes.
    pub fn forward(&mut self, rack: &mut Rack) -> Option<Outcome>
        requires few { length rack.old.items ≤ MOST_CHIPS }
        requires fits { Fits self.old.machine (map state rack.old.items) }
        ensures some { (first : List ChipView) →
            IsTaped self.old (map state rack.old.items) first →
            IfSome result (λ outcome. IsForward outcome self.old self.new
            (map state rack.new.items) first
            (sum_by queries rack.old.items) (sum_by queries rack.new.items)) }
        ensures moves { IfSome result (λ outcome. Forwards self.old.log self.new.log) }
        ensures none { IfNone result (instructions_in self.old.log.left ≡ 0) }
        ensures stays { IfNone result (self.new ≡ self.old) }
        ensures rack { IfNone result (map state rack.new.items ≡ map state rack.old.items) }
        ensures unasked { IfNone result (map queries rack.new.items ≡ map queries rack.old.items) }
        ensures tape { self.new ≡ record self.old {
          machine = self.new.machine;
          log = self.new.log;
        } }
        ensures chain { self.new.machine.chain ≡ self.old.machine.chain }
        ensures patches { patches (map state rack.new.items) ≡ patches (map state rack.old.items) }
        ensures fits { Fits self.new.machine (map state rack.new.items) }
        ensures chips { length rack.new.items ≡ length rack.old.items }
    {
        if self.log.place() == self.log.length() {
            return None;
        }
        while let Some(entry) = self.log.play() {
            match entry {
                Entry::Happens(event) => happen(&mut self.machine, event, rack),
                Entry::Instruction => return Some(self.machine.instr(rack)),
            }
        }
        None
    }

    /// Does the events behind the last instruction again. No instruction may be left.
    pub fn finish(&mut self, rack: &mut Rack)
        requires few { length rack.old.items ≤ MOST_CHIPS }
        requires none { instructions_in self.old.log.left ≡ 0 }
        requires fits { Fits self.old.machine (map state rack.old.items) }
        ensures taped { (first : List ChipView) →
            IsTaped self.old (map state rack.old.items) first →
            IsTaped self.new (map state rack.new.items) first }
        ensures tape { self.new ≡ record self.old {
          machine = self.new.machine;
          log = record self.old.log {
            played = self.old.log.played ++ self.old.log.left;
            left = [];
          };
        } }
        ensures chain { self.new.machine.chain ≡ self.old.machine.chain }
        ensures allowed { (first : List ChipView) →
            IsTaped self.old (map state rack.old.items) first →
            allowed_since_power (come self.new first) ≡ allowed_since_power (come self.old first) }
        ensures asked { map queries rack.new.items ≡ map queries rack.old.items }
        ensures patches { patches (map state rack.new.items) ≡ patches (map state rack.old.items) }
        ensures fits { Fits self.new.machine (map state rack.new.items) }
        ensures chips { length rack.new.items ≡ length rack.old.items }
    {
        while let Some(Entry::Happens(event)) = self.log.play() {
            happen(&mut self.machine, event, rack);
        }
    }

    /// Drops the entries that are left to play, and gives back the room of their events.
    pub fn cut(&mut self)
        ensures taped { (states : List ChipState) (first : List ChipView) →
            IsTaped self.old states first → IsTaped self.new states first }
        ensures tape { self.new ≡ record self.old {
          log = record {
            played = self.old.log.played;
            left = [];
            spare = self.old.log.spare + events_in self.old.log.left;
          };
        } }
    {
        self.log.cut();
    }

    /// The last reset was done.
    pub fn is_begun(&self) -> bool
        ensures { result ≡ is_begun self.now.mode }
    {
        self.mode != TapeMode::Unbegun
    }

    /// How many instructions were played.
    pub fn place(&self) -> u32
        ensures { result ≡ instructions_in self.now.log.played }
    {
        self.log.place()
    }

    /// How many instructions there are.
    pub fn length(&self) -> u32
        ensures { result ≡ instructions_in self.now.log.played + instructions_in self.now.log.left }
    {
        self.log.length()
    }

    /// How many more key bytes and pulses there is room for.
    pub fn spare(&self) -> u32
        ensures { result ≡ self.now.log.spare }
    {
        self.log.spare()
    }

    /// The machine.
    pub fn machine(&self) -> &Machine
        ensures { result.now ≡ self.now.machine }
    {
        &self.machine
    }
}
