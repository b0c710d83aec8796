// A session: power-on, reset, events and instructions of a machine on its rack, one command after another.
ghost use Rattle.std.specs.Prelude.{◌≡◌};
ghost use Rattle.chip_debug.specs.Standing.{halt_in};

use super::breaks::Breaks;
use super::command::Command;
use super::command_list::CommandList;
use super::meeting::is_heeded;
use super::replaying::{Sought, go_back, replay};
use super::session_lines::{mem_line, stored_line};
use super::telling::{put_back, put_chips, put_going, put_regs, put_start};
use cart_data::Cart;
use chip_face::{Chip, MOST_CHIPS};
use console_spec::Event;
use f8_machine::{Outcome, Rack};
use f8_spec::Memory;
use outside::{Sink, SinkFault};
use rack_run::{Halt, chain_of};
use rewind::Tape;
use std::alloc::Global;
use std::marker::Model;

/// What came of an instruction.
#[derive(Clone, Copy, Debug, PartialEq, Eq)]
pub(crate) enum Came {
    /// It is done.
    Done,

    /// It is done, and met a break that is heeded.
    Met,

    /// It stopped the session.
    Stopped,
}

/// How many instructions were done, and whether the last of them met a break that was heeded.
#[derive(Clone, Copy, Debug, PartialEq, Eq)]
pub(crate) struct Ran {
    pub(crate) count: u32,
    pub(crate) broke: bool,
}

impl Ran {
    fn ended(count: u32, broke: bool) -> Ran
        ensures { result ≡ record { count = count; broke = broke } }
    {
        Ran { count, broke }
    }
}

/// Where a session went back to, and whether that instruction met a break.
#[derive(Clone, Copy, Debug, PartialEq, Eq)]
pub(crate) struct Returned {
    pub(crate) place: u32,
    pub(crate) broke: bool,
}

/// A debugger's session on a rack of storage chips, which is lent to each call. Each chip must then have the view and the patch that the
/// session's last call left it. Contracts see a `SessionState`.
#[derive(Drop)]
pub struct Session {
    tape: Tape,

    /// What stopped it since power-on, if anything did.
    halt: Option<Halt>,
    breaks: Breaks,
}

impl Model for Session {
    ghost use Rattle.chip_debug.specs.Standing.{SessionState, IsPlayed};

    ghost Value = { SessionState };

    ghost view = { λ s. record {
      tape = s.tape;
      halt = s.halt;
      breaks = s.breaks;
    } };

    ghost invariant = { λ s. IsPlayed s.tape s.halt };
}

/// What stops the session by an outcome, if it does.
fn halt_of(outcome: &Outcome) -> Option<Halt>
    ensures { result ≡ halt_in outcome.now }
{
    match outcome {
        Outcome::Done { .. } => None,
        Outcome::Fault { fault, .. } => Some(Halt::Fault(fault.copy())),
        Outcome::Reserved { at, code } => Some(Halt::Reserved {
            at: *at,
            code: *code,
        }),
    }
}

impl Session {
    ghost use Rattle.std.specs.Prelude.{◌≡◌, ◌≤◌, ◌<◌, ◌+◌, ◌-◌, ◌^◌, IfOk, OnErr, length, map, sum_by, is_some};
    ghost use Rattle.std.specs.Prelude.{Option, None};
    ghost use Rattle.f8_spec.specs.BusArbitration.{seat_of};
    ghost use Rattle.console_spec.specs.declared.Event.{Event};
    ghost use Rattle.console_spec.specs.RunText.{text_of};
    ghost use Rattle.cpu3850.specs.OwnWrites.{LeaveOwnPorts};
    ghost use Rattle.data_bus.specs.Racks.{views};
    ghost use Rattle.f8_machine.specs.Fitting.{Fits};
    ghost use Rattle.f8_machine.specs.Refinement.{AreWhole};
    ghost use Rattle.rack_run.specs.Seating.{kinds_of};
    ghost use Rattle.rack_run.specs.Sockets.{chain_of as chain_by};
    ghost use Rattle.rack_run.specs.Texts.{Puts};
    ghost use Rattle.rewind.specs.Asking.{allowed_since_power};
    ghost use Rattle.rewind.specs.Standing.{patches};
    ghost use Rattle.chip_debug.specs.Asking.{command_allowed, going_allowed, replay_allowed};
    ghost use Rattle.chip_debug.specs.Carried.{going_lines, lines_of, restarted, scene_after, scene_on};
    ghost use Rattle.chip_debug.specs.declared.command.Command.TheVariants.{BackRun};
    ghost use Rattle.chip_debug.specs.Limits.{IsCommand, count_of, room_of, rooms_of};
    ghost use Rattle.chip_debug.specs.Scenes.{Scene, going, happened, reached};
    ghost use Rattle.chip_debug.specs.Standing.{IsAt, IsGone, IsTurned, count_in, most_done};
    ghost use Rattle.chip_debug.specs.Stepping.{back_by, back_to_break, gone_to, met_before, stored_by};

    /// A session with the chips of a cartridge on a rack of at most 16 chips that is fitted for it: power-on with the byte 00, each chip
    /// described as is said of it, and reset. What is said is kept. There is room for the key bytes and the pulses of these commands, each
    /// given once. The chips are put in all at most 512 questions for each, and the allowances of the bus steps of reset. No chip's patch
    /// changes.
    ///
    /// # Errors
    ///
    /// Memory is wanting for the key bytes and the pulses. Then the rack is as it was, and no chip was put a question.
    pub fn new(
        alloc: Global,
        cart: &Cart,
        commands: &CommandList,
        rack: &mut Rack,
    ) -> Result<Session, Memory>
        requires few { length rack.old.items ≤ MOST_CHIPS }
        requires whole { AreWhole (map state rack.old.items) }
        requires ports { LeaveOwnPorts (map seat_of (views (map state rack.old.items))) }
        ensures at { IfOk result (λ session. IsAt session (map state rack.new.items) (scene_on
            (chain_by cart.now.chips (kinds_of (map state rack.old.items)))
            cart.now.powers (views (map state rack.old.items)))) }
        ensures room { IfOk result (λ session. session.tape.log.spare ≡ rooms_of commands.now) }
        ensures patches { patches (map state rack.new.items) ≡ patches (map state rack.old.items) }
        ensures asked { IfOk result (λ session. sum_by queries rack.new.items
            ≤ sum_by queries rack.old.items + allowed_since_power (reached (scene_on
            (chain_by cart.now.chips (kinds_of (map state rack.old.items)))
            cart.now.powers (views (map state rack.old.items))))) }
        ensures fits { IfOk result
            (λ session. Fits session.tape.machine (map state rack.new.items)) }
        ensures count { IfOk result (λ session. count_in session ≡ 0) }
        ensures stays { OnErr result (map state rack.new.items ≡ map state rack.old.items) }
        ensures unasked { OnErr result (map queries rack.new.items ≡ map queries rack.old.items) }
        ensures chips { length rack.new.items ≡ length rack.old.items }
    {
        let Ok(room) = u32::try_from(commands.rooms()) else {
            return Err(Memory);
        };
        let chain = chain_of(&cart.chips, rack);
        let (tape, outcome) = Tape::start(alloc, 0, chain, cart.powers.copy(), room, rack)?;
        Ok(Session {
            tape,
            halt: halt_of(&outcome),
            breaks: Breaks::none(),
        })
    }

    /// Power-on with this byte and reset, of the same rack with the same chips described, each as is said of it. Breaks stay.
    fn restart(&mut self, fill: u8, rack: &mut Rack)
        requires few { length rack.old.items ≤ MOST_CHIPS }
        ensures at { (scene : Scene) → IsAt self.old (map state rack.old.items) scene →
            IsAt self.new (map state rack.new.items) (restarted fill scene) }
        ensures patches { patches (map state rack.new.items) ≡ patches (map state rack.old.items) }
        ensures asked { (scene : Scene) → IsAt self.old (map state rack.old.items) scene →
            sum_by queries rack.new.items ≤ sum_by queries rack.old.items
            + allowed_since_power (reached (restarted fill scene)) }
        ensures spare { self.old.tape.log.spare ≤ self.new.tape.log.spare }
        ensures fits { Fits self.new.tape.machine (map state rack.new.items) }
        ensures count { count_in self.new ≡ 0 }
        ensures chips { length rack.new.items ≡ length rack.old.items }
    {
        let outcome = self.tape.power(fill, rack);
        self.halt = halt_of(&outcome);
    }

    /// A key byte or a pulse, which changes nothing where the session has stopped.
    fn happen(&mut self, event: Event, rack: &mut Rack)
        requires few { length rack.old.items ≤ MOST_CHIPS }
        requires room { 0 < self.old.tape.log.spare }
        requires fits { Fits self.old.tape.machine (map state rack.old.items) }
        ensures at { (scene : Scene) → IsAt self.old (map state rack.old.items) scene →
            IsAt self.new (map state rack.new.items) (happened event scene) }
        ensures patches { patches (map state rack.new.items) ≡ patches (map state rack.old.items) }
        ensures asked { map queries rack.new.items ≡ map queries rack.old.items }
        ensures spare { self.old.tape.log.spare ≤ self.new.tape.log.spare + 1 }
        ensures fits { Fits self.new.tape.machine (map state rack.new.items) }
        ensures count { count_in self.new ≡ count_in self.old }
        ensures chips { length rack.new.items ≡ length rack.old.items }
    {
        if self.halt.is_some() {
            return;
        }
        match event {
            Event::Keys { port, byte } => self.tape.keys(rack, port, byte),
            Event::Pulse { chip } => self.tape.pulse(rack, chip),
        }
    }

    /// The next instruction of a session that hasn't stopped.
    fn turn(&mut self, heeds: bool, rack: &mut Rack) -> Came
        requires few { length rack.old.items ≤ MOST_CHIPS }
        requires running { self.old.halt ≡ None }
        requires count { count_in self.old + 1 < 2 ^ 32 }
        requires fits { Fits self.old.tape.machine (map state rack.old.items) }
        ensures turned { (scene : Scene) → IsAt self.old (map state rack.old.items) scene →
            IsTurned heeds result self.new (map state rack.new.items) scene
            (sum_by queries rack.old.items) (sum_by queries rack.new.items) }
        ensures patches { patches (map state rack.new.items) ≡ patches (map state rack.old.items) }
        ensures goes_on { result ≡ Came.Done → self.new.halt ≡ None }
        ensures spare { self.new.tape.log.spare ≡ self.old.tape.log.spare }
        ensures fits { Fits self.new.tape.machine (map state rack.new.items) }
        ensures count { count_in self.new ≤ count_in self.old + 1 }
        ensures chips { length rack.new.items ≡ length rack.old.items }
    {
        let outcome = self.tape.instr(rack);
        if let Some(halt) = halt_of(&outcome) {
            self.halt = Some(halt);
            return Came::Stopped;
        }
        let machine = self.tape.machine();
        if is_heeded(heeds, self.breaks, outcome.steps(), machine, rack) {
            Came::Met
        } else {
            Came::Done
        }
    }

    /// So many instructions at most.
    fn go(&mut self, count: u32, heeds: bool, rack: &mut Rack) -> Ran
        requires few { length rack.old.items ≤ MOST_CHIPS }
        requires count { count_in self.old + count < 2 ^ 32 }
        requires fits { Fits self.old.tape.machine (map state rack.old.items) }
        ensures gone { (scene : Scene) → IsAt self.old (map state rack.old.items) scene →
            IsGone heeds count result self.new (map state rack.new.items) scene
            (sum_by queries rack.old.items) (sum_by queries rack.new.items) }
        ensures patches { patches (map state rack.new.items) ≡ patches (map state rack.old.items) }
        ensures spare { self.new.tape.log.spare ≡ self.old.tape.log.spare }
        ensures fits { Fits self.new.tape.machine (map state rack.new.items) }
        ensures count { count_in self.new ≤ count_in self.old + count }
        ensures chips { length rack.new.items ≡ length rack.old.items }
    {
        if self.halt.is_some() {
            return Ran::ended(0, false);
        }
        for done in 0..count {
            match self.turn(heeds, rack) {
                Came::Done => {}
                Came::Met => return Ran::ended(done + 1, true),
                Came::Stopped => return Ran::ended(done, false),
            }
        }
        Ran::ended(count, false)
    }

    /// So many instructions at most, and what came of them.
    fn go_and_tell<K: Sink>(
        &mut self,
        count: u32,
        heeds: bool,
        rack: &mut Rack,
        sink: &mut K,
    ) -> Result<(), SinkFault>
        requires few { length rack.old.items ≤ MOST_CHIPS }
        requires count { count_in self.old + count < 2 ^ 32 }
        requires fits { Fits self.old.tape.machine (map state rack.old.items) }
        ensures carried { (scene : Scene) → IsAt self.old (map state rack.old.items) scene →
            IsAt self.new (map state rack.new.items) (going heeds count scene).scene }
        ensures told { (scene : Scene) → IsAt self.old (map state rack.old.items) scene →
            Puts result (K.output sink.old) (K.output sink.new)
            (text_of (going_lines (going heeds count scene))) }
        ensures patches { patches (map state rack.new.items) ≡ patches (map state rack.old.items) }
        ensures asked { (scene : Scene) → IsAt self.old (map state rack.old.items) scene →
            sum_by queries rack.new.items ≤ sum_by queries rack.old.items
            + going_allowed heeds count scene }
        ensures spare { self.new.tape.log.spare ≡ self.old.tape.log.spare }
        ensures fits { Fits self.new.tape.machine (map state rack.new.items) }
        ensures count { count_in self.new ≤ count_in self.old + count }
        ensures chips { length rack.new.items ≡ length rack.old.items }
    {
        let ran = self.go(count, heeds, rack);
        put_going(sink, ran, &self.halt)
    }

    /// Goes back by so many instructions, or to 0, and answers to which.
    fn back(&mut self, count: u32, rack: &mut Rack) -> u32
        requires few { length rack.old.items ≤ MOST_CHIPS }
        ensures at { (scene : Scene) → IsAt self.old (map state rack.old.items) scene →
            IsAt self.new (map state rack.new.items) (gone_to (back_by count scene) scene) }
        ensures place { (scene : Scene) → IsAt self.old (map state rack.old.items) scene →
            result ≡ back_by count scene }
        ensures patches { patches (map state rack.new.items) ≡ patches (map state rack.old.items) }
        ensures asked { (scene : Scene) → IsAt self.old (map state rack.old.items) scene →
            sum_by queries rack.new.items ≤ sum_by queries rack.old.items
            + replay_allowed (back_by count scene) scene }
        ensures spare { self.old.tape.log.spare ≤ self.new.tape.log.spare }
        ensures fits { Fits self.new.tape.machine (map state rack.new.items) }
        ensures count { count_in self.new ≤ count_in self.old }
        ensures chips { length rack.new.items ≡ length rack.old.items }
    {
        let place = self.tape.place().saturating_sub(count);
        go_back(&mut self.tape, &mut self.halt, place, rack);
        place
    }

    /// Goes back to the last of so many instructions, but for the last one that is done, that met a break; by all of them where none did.
    /// The breaks are those of now.
    fn back_run(&mut self, count: u32, rack: &mut Rack) -> Returned
        requires few { length rack.old.items ≤ MOST_CHIPS }
        ensures at { (scene : Scene) → IsAt self.old (map state rack.old.items) scene →
            IsAt self.new (map state rack.new.items) (gone_to (back_to_break count scene) scene) }
        ensures place { (scene : Scene) → IsAt self.old (map state rack.old.items) scene →
            result.place ≡ back_to_break count scene }
        ensures broke { (scene : Scene) → IsAt self.old (map state rack.old.items) scene →
            result.broke ≡ is_some (met_before count scene) }
        ensures patches { patches (map state rack.new.items) ≡ patches (map state rack.old.items) }
        ensures asked { (scene : Scene) → IsAt self.old (map state rack.old.items) scene →
            sum_by queries rack.new.items ≤ sum_by queries rack.old.items
            + command_allowed (BackRun count) scene }
        ensures spare { self.old.tape.log.spare ≤ self.new.tape.log.spare }
        ensures fits { Fits self.new.tape.machine (map state rack.new.items) }
        ensures count { count_in self.new ≤ count_in self.old }
        ensures chips { length rack.new.items ≡ length rack.old.items }
    {
        let done = self.tape.place();
        let from = done.saturating_sub(count);
        let sought = Sought::Break {
            from,
            breaks: self.breaks,
        };
        let met = replay(&mut self.tape, done.saturating_sub(1), sought, rack);
        let place = met.unwrap_or(from);
        go_back(&mut self.tape, &mut self.halt, place, rack);
        Returned {
            place,
            broke: met.is_some(),
        }
    }

    /// The last instruction that stored at this address. All entries are done again, and the instruction that stopped the session, if one
    /// did, so that it stands where it stood.
    fn stored(&mut self, at: u16, rack: &mut Rack) -> Option<u32>
        requires few { length rack.old.items ≤ MOST_CHIPS }
        requires count { count_in self.old < most_done }
        requires fits { Fits self.old.tape.machine (map state rack.old.items) }
        ensures at { (scene : Scene) → IsAt self.old (map state rack.old.items) scene →
            IsAt self.new (map state rack.new.items) scene }
        ensures place { (scene : Scene) → IsAt self.old (map state rack.old.items) scene →
            result ≡ stored_by at scene }
        ensures patches { patches (map state rack.new.items) ≡ patches (map state rack.old.items) }
        ensures asked { (scene : Scene) → IsAt self.old (map state rack.old.items) scene →
            sum_by queries rack.new.items ≤ sum_by queries rack.old.items
            + allowed_since_power (reached scene) }
        ensures spare { self.new.tape.log.spare ≡ self.old.tape.log.spare }
        ensures fits { Fits self.new.tape.machine (map state rack.new.items) }
        ensures count { (scene : Scene) → IsAt self.old (map state rack.old.items) scene →
            count_in self.new ≤ count_in self.old }
        ensures chips { length rack.new.items ≡ length rack.old.items }
    {
        let done = self.tape.place();
        if done == 0 {
            return None;
        }
        let found = replay(&mut self.tape, done, Sought::Store { at }, rack);
        self.tape.finish(rack);
        if self.halt.is_some() {
            let _ = self.tape.instr(rack);
        }
        found
    }

    /// Carries a command out, and puts its lines, each at once. The chips are put in all no more questions than the allowances of the bus steps
    /// that were tried, with 512 for each chip at power-on, and what the command asks itself: each chip for its counters or for each byte
    /// of memory, and each chip described behind each instruction that is done, or done again, where counters that part are a break that
    /// is heeded. Stepping back powers the chips and does again what came before; so does looking for a store. No chip's patch changes.
    /// A key byte and a pulse need room, which `new` takes for each command of its list.
    ///
    /// # Errors
    ///
    /// The sink failed at a line. The command is carried out whole all the same.
    pub fn command<K: Sink>(
        &mut self,
        command: &Command,
        rack: &mut Rack,
        sink: &mut K,
    ) -> Result<(), SinkFault>
        requires few { length rack.old.items ≤ MOST_CHIPS }
        requires ranges { IsCommand command.now }
        requires count { count_in self.old < most_done }
        requires room { room_of command.now ≤ self.old.tape.log.spare }
        requires fits { Fits self.old.tape.machine (map state rack.old.items) }
        ensures carried { (scene : Scene) → IsAt self.old (map state rack.old.items) scene →
            IsAt self.new (map state rack.new.items) (scene_after command.now scene) }
        ensures told { (scene : Scene) → IsAt self.old (map state rack.old.items) scene →
            Puts result (K.output sink.old) (K.output sink.new)
            (text_of (lines_of command.now scene)) }
        ensures patches { patches (map state rack.new.items) ≡ patches (map state rack.old.items) }
        ensures asked { (scene : Scene) → IsAt self.old (map state rack.old.items) scene →
            sum_by queries rack.new.items ≤ sum_by queries rack.old.items
            + command_allowed command.now scene }
        ensures room { self.old.tape.log.spare ≤ self.new.tape.log.spare + room_of command.now }
        ensures fits { Fits self.new.tape.machine (map state rack.new.items) }
        ensures count { (scene : Scene) → IsAt self.old (map state rack.old.items) scene →
            count_in self.new ≤ count_in self.old + count_of command.now }
        ensures chips { length rack.new.items ≡ length rack.old.items }
    {
        match *command {
            Command::Power { fill } => {
                self.restart(fill, rack);
                put_start(sink, &self.halt)
            }
            Command::Keys { port, byte } => {
                self.happen(Event::Keys { port, byte }, rack);
                Ok(())
            }
            Command::Pulse { chip } => {
                self.happen(Event::Pulse { chip }, rack);
                Ok(())
            }
            Command::Step { count } => self.go_and_tell(count, false, rack, sink),
            Command::Run { count } => self.go_and_tell(count, true, rack, sink),
            Command::BreakAt { .. }
            | Command::BreakRomc { .. }
            | Command::BreakChip { .. }
            | Command::BreakApart
            | Command::Clear => {
                self.breaks = self.breaks.after(*command);
                Ok(())
            }
            Command::ShowRegs => put_regs(
                sink,
                &self.tape.machine().regs(),
                self.tape.place(),
                self.tape.machine().phi(),
            ),
            Command::ShowChips => put_chips(
                sink,
                self.tape.machine().chain(),
                &self.tape.machine().reference(),
                rack,
            ),
            Command::Mem { at, count } => sink.put(mem_line(rack, at, count).as_bytes()),
            Command::Back { count } => put_back(sink, self.back(count, rack), false),
            Command::BackRun { count } => {
                let Returned { place, broke } = self.back_run(count, rack);
                put_back(sink, place, broke)
            }
            Command::Stored { at } => sink.put(stored_line(self.stored(at, rack)).as_bytes()),
        }
    }
}
