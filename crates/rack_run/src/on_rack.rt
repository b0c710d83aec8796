// A run on a rack of chips.
ghost use Rattle.std.specs.Prelude.{◌≡◌, ◌≤◌, length, map, sum_by, IfOk, OnOk, OnErr};
ghost use Rattle.f8_spec.specs.BusArbitration.{seat_of};
ghost use Rattle.console_spec.specs.Telling.{code_of as told_code};
ghost use Rattle.cpu3850.specs.OwnWrites.{LeaveOwnPorts};
ghost use Rattle.data_bus.specs.Racks.{views};
ghost use Rattle.f8_machine.specs.Faults.{fault_of};
ghost use Rattle.f8_machine.specs.Refinement.{AreWhole};
ghost use Rattle.pad_script.specs.Limits.{HasLimits};
ghost use Rattle.pad_script.specs.Reading.{seen};
ghost use Rattle.rack_run.specs.Asking.{AsksWithin, run_allowed, tried_codes};
ghost use Rattle.rack_run.specs.Endings.{Plays, PlaysPart, run_on};
ghost use Rattle.rack_run.specs.Texts.{Puts, text_in, outcome_told};

use super::detail::Detail;
use super::ending::{Cut, Ending, Halt};
use super::events::happen_at;
use super::player::Player;
use super::progress::Progress;
use super::run::{ending, run};
use super::telling::{tell_fault, tell_steps};
use chip_face::{Chip, MOST_CHIPS, Powers};
use console_board::PortWrite;
use console_spec::{Event, Regs};
use data_bus::BusFault;
use f8_machine::{Chain, Machine, Outcome, Rack};
use outside::{Sink, SinkFault};
use pad_script::Script;
use romc_table::Romc;

/// The code of a bus step that isn't served.
fn code_of(fault: &BusFault) -> Romc
    ensures { result ≡ told_code (fault_of fault.now) }
{
    match fault {
        BusFault::Conflict { romc, .. }
        | BusFault::Undriven { romc, .. }
        | BusFault::Astray { romc, .. } => *romc,
    }
}

/// The bus steps of an outcome, where they are told.
#[inline(always)]
fn tell_outcome<K: Sink>(sink: &mut K, detail: Detail, outcome: &Outcome) -> Result<(), SinkFault>
    ensures { Puts result (K.output sink.old) (K.output sink.new)
        (text_in detail (outcome_told detail outcome.now)) }
{
    match outcome {
        Outcome::Done { steps, .. } => tell_steps(sink, detail, steps.as_slice()),
        Outcome::Fault { fault, long, steps } => {
            tell_steps(sink, detail, steps.as_slice())?;
            tell_fault(sink, detail, code_of(fault), *long)
        }
        Outcome::Reserved { .. } => Ok(()),
    }
}

impl Player for Machine {
    ghost use Rattle.std.specs.Prelude.{◌≡◌};
    ghost use Rattle.chip_face.specs.declared.sizes.TheConstants.{MOST_CHIPS};
    ghost use Rattle.console_spec.specs.Telling.{on_rack};
    ghost use Rattle.f8_machine.specs.Fitting.{Fits};
    ghost use Rattle.f8_machine.specs.MachineState.{IsReset};
    ghost use Rattle.f8_machine.specs.Questions.{allowances};
    ghost use Rattle.f8_machine.specs.Refinement.{IsPowered, Represents};
    ghost use Rattle.rack_run.specs.Machines.{machine_readout, machine_reads};
    ghost use Rattle.rack_run.specs.Texts.{is_traced};

    ghost most_chips = { MOST_CHIPS };

    ghost way = { λ detail. on_rack (is_traced detail) };

    ghost begins = { λ m states x. IsPowered m states x };

    ghost at = { λ m states x. Represents m states x };

    ghost readout = { λ m. machine_readout m };

    ghost ready = { λ m. IsReset m.mode };

    ghost fits = { λ m states. Fits m states };

    ghost allowed = { λ chips m codes. allowances chips m.index codes };

    fn advance<K: Sink>(
        &mut self,
        rack: &mut Rack,
        sink: &mut K,
        detail: Detail,
    ) -> Result<Option<PortWrite>, Cut> {
        let outcome = self.instr(rack);
        let Ok(()) = tell_outcome(sink, detail, &outcome) else {
            return Err(Cut::Sink);
        };
        match outcome {
            Outcome::Done { wrote, .. } => Ok(wrote),
            Outcome::Fault { fault, .. } => Err(Cut::Halt(Halt::Fault(fault))),
            Outcome::Reserved { at, code } => Err(Cut::Halt(Halt::Reserved { at, code })),
        }
    }

    fn happen(&mut self, rack: &mut Rack, event: Event) {
        match event {
            Event::Keys { port, byte } => self.keys(rack, port, byte),
            Event::Pulse { chip } => self.pulse(rack, chip),
        }
    }

    fn registers(&self) -> Regs {
        self.regs()
    }

    fn clocks(&self) -> u64 {
        self.phi()
    }

    ghost reads = { machine_reads };
}

/// A run by a script on a rack of at most 16 chips that are fitted: power-on, the events of frame 0, reset, and instructions, each told
/// as it is done. `chain` has the sockets of the chips described, and `powers` what is said of the power-on of each, in the same order;
/// where that ends before a chip, nothing is said of it. `detail` says how much is told on the way; each line is one put.
///
/// The chips are put no more questions than 512 each, and the allowances of the bus steps that were tried. That questions are counted is
/// this project's own.
///
/// # Errors
///
/// The sink failed at a line. The rack stands at the end of the instruction, or of the reset, whose line it is.
pub fn play<K: Sink>(
    rack: &mut Rack,
    sink: &mut K,
    chain: Chain,
    powers: &Powers,
    script: &Script,
    detail: Detail,
) -> Result<Ending, SinkFault>
    requires few { length rack.old.items ≤ MOST_CHIPS }
    requires whole { AreWhole (map state rack.old.items) }
    requires ports { LeaveOwnPorts (map seat_of (views (map state rack.old.items))) }
    requires limits { HasLimits script.now.end }
    ensures plays { IfOk result (λ ending. Plays detail (seen script.now) chain powers.now ending
        (map state rack.old.items) (map state rack.new.items)
        (K.output sink.old) (K.output sink.new)) }
    ensures asked { OnOk result (AsksWithin (run_allowed (map state rack.old.items))
        (sum_by queries rack.old.items) (sum_by queries rack.new.items)
        (tried_codes (run_on detail (seen script.now) chain powers.now
        (map state rack.old.items)))) }
    ensures failed { OnErr result (PlaysPart
        (AsksWithin (run_allowed (map state rack.old.items))
        (sum_by queries rack.old.items) (sum_by queries rack.new.items))
        detail (seen script.now) chain powers.now
        (map state rack.old.items) (map state rack.new.items)
        (K.output sink.old) (K.output sink.new)) }
    ensures chips { length rack.new.items ≡ length rack.old.items }
{
    let mut machine = Machine::power(script.power, chain, powers, rack);
    happen_at(&mut machine, rack, script.events.as_slice(), 0);
    let outcome = machine.reset(rack);
    tell_outcome(sink, detail, &outcome)?;
    let mut progress = Progress::new(machine.phi());
    match outcome {
        Outcome::Done { .. } => run(&mut machine, rack, sink, &mut progress, script, detail),
        Outcome::Fault { fault, .. } => Ok(ending(&machine, &progress, Some(Halt::Fault(fault)))),
        Outcome::Reserved { at, code } => {
            Ok(ending(&machine, &progress, Some(Halt::Reserved { at, code })))
        }
    }
}
