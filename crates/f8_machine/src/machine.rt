//! The machine: power, reset, instructions, key bytes and pulses.
use super::all_chips::{key_all, power_all};
use super::bus::Bus;
use super::carry::carry_out;
use super::chain::Chain;
use super::flow::Flow;
use super::interrupt::clocks_of_plan;
use super::outcome::{Mode, Outcome, StoppedBy};
use super::pulse::pulse_at;
use super::record::Record;
use super::reset::fetch_first;
use super::unserved::{NotServed, Unserved};
use super::wrote::done_write;
use chip_face::{Chip, Counters, MOST_CHIPS, Powers};
use console_spec::Regs;
use cpu3850::{Cpu, Steps};
use data_bus::{Index, Rack};
use f8_ops::{OWN_PORTS, RESET_PHI, Reserved};
use probe::Probe;
use std::marker::Model;

/// The 3850 with the probe, on a rack of chips that is lent to each call. Contracts see a `MachineState`.
///
/// It carries out the F8 instruction set up to the first bus step that isn't served by exactly one chip at the probe's address. Then it
/// is stopped, and answers the same again.
#[derive(Debug, Drop)]
pub struct Machine {
    bus: Bus,
    cpu: Cpu,

    /// The counters as the last instruction that was done left them.
    flow: Flow,

    /// The clocks of reset and of the instructions that were done, in Φ.
    phi: u64,

    /// The sockets of the chips described.
    chain: Chain,
    mode: Mode,
}

impl Model for Machine {
    ghost use Rattle.std.specs.Prelude.{◌≡◌};
    ghost use Rattle.f8_machine.specs.MachineState.{MachineState, flow_of};
    ghost use Rattle.f8_machine.specs.declared.outcome.Mode.TheVariants.{Powered};

    ghost Value = { MachineState };

    ghost view = { λ m. record {
      probe = m.bus.probe;
      cpu = m.cpu;
      flow = flow_of m.flow;
      phi = m.phi;
      chain = m.chain;
      mode = m.mode;
      index = m.bus.index;
    } };

    // Before reset no clock has passed.
    ghost invariant = { λ m. m.mode ≡ Powered → m.phi ≡ 0 };
}

impl Machine {
    ghost use Rattle.std.specs.Prelude.{◌≡◌, ◌≤◌, ◌<◌, ◌+◌, ◌^◌, [], length, map, sum_by, slice_get};
    ghost use Rattle.f8_spec.specs.BusArbitration.{seat_of};
    ghost use Rattle.cpu3850.specs.OwnWrites.{LeaveOwnPorts};
    ghost use Rattle.console_spec.specs.Processor.{told_regs};
    ghost use Rattle.console_spec.specs.Run.{Position, power_position};
    ghost use Rattle.probe.specs.ProbeState.{probe_counters};
    ghost use Rattle.std.specs.List.{list_any};
    ghost use Rattle.data_bus.specs.KnownAgreement.{no_marks, parts};
    ghost use Rattle.data_bus.specs.PageIndex.{seats};
    ghost use Rattle.data_bus.specs.Questions.{AskedAtMost};
    ghost use Rattle.data_bus.specs.Racks.{NumberedZip, views};
    ghost use Rattle.f8_machine.specs.Fitting.{Fits, tried};
    ghost use Rattle.f8_machine.specs.Questions.{allowances};
    ghost use Rattle.f8_machine.specs.HeardSteps.{HaveBytes};
    ghost use Rattle.f8_machine.specs.MachineState.{IsReset, halted, powered_machine, steps_in};
    ghost use Rattle.f8_machine.specs.Refinement.{AreWhole, Represents, IsPowered, ResetRefines};
    ghost use Rattle.f8_machine.specs.Advancing.{Follows, Advances, Halts, StaysStopped};
    ghost use Rattle.f8_machine.specs.Rounds.{RackPowers};
    ghost use Rattle.f8_machine.specs.Keying.{RackKeyed, keyed_machine};
    ghost use Rattle.console_spec.specs.declared.Event.TheVariants.{Keys, Pulse};
    ghost use Rattle.f8_machine.specs.RequestsHeld.{RackPulsed};
    ghost use Rattle.console_spec.specs.Telling.{with_event};

    /// Power-on of the machine and of every chip of the rack, of which there are at most 16. The power byte is in the accumulator, in
    /// ISAR modulo 64, in the scratchpad and in all RAM, and the counters of the chip in a socket stand at the power byte in both
    /// halves, and the socket added; the probe's stand at 0. `chain` has the sockets of the chips described, and `powers` what is said
    /// of the power-on of each, in the same order: a chip of which another byte or another address is said has that one in its RAM or
    /// its counters, and of a chip behind the last of them nothing is said. The counters of a chip that has none are 0. Power-on contents
    /// are this project's own. Each chip is put at most 512 questions, by which the index of the rack is made; of the chips' counters the
    /// index knows nothing then.
    pub fn power(fill: u8, chain: Chain, powers: &Powers, rack: &mut Rack) -> Machine
        requires few { length rack.old.items ≤ MOST_CHIPS }
        ensures machine { result ≡ powered_machine fill chain result.index }
        ensures powered { RackPowers fill chain powers.now
            (map state rack.old.items) (map state rack.new.items) }
        ensures pair { AreWhole (map state rack.old.items) →
            LeaveOwnPorts (map seat_of (views (map state rack.old.items))) →
            IsPowered result (map state rack.new.items)
            (power_position (views (map state rack.old.items)) chain powers.now fill) }
        ensures fits { Fits result (map state rack.new.items) }
        ensures marks { result.index.marks ≡ no_marks }
        ensures parted { result.index.is_parted
            ≡ list_any parts (seats (map state rack.old.items)) }
        ensures asked { NumberedZip (AskedAtMost 512) 0 (map queries rack.old.items)
            (map queries rack.new.items) }
        ensures chips { length rack.new.items ≡ length rack.old.items }
    {
        power_all(rack, fill, chain.as_slice(), powers.as_slice());
        let index = Index::of(rack);
        Machine {
            bus: Bus {
                probe: Probe::new(),
                index,
            },
            cpu: Cpu::power(fill),
            flow: Flow::zero(),
            phi: 0,
            chain,
            mode: Mode::Powered,
        }
    }

    /// Reset, once after power-on: the opcode at 0 is fetched. Where that isn't served the machine is stopped. It takes 14 Φ.
    pub fn reset(&mut self, rack: &mut Rack) -> Outcome
        requires few { length rack.old.items ≤ MOST_CHIPS }
        requires mode { self.old.mode ≡ Mode.Powered }
        requires fits { Fits self.old (map state rack.old.items) }
        ensures refines { (x : Position) → IsPowered self.old (map state rack.old.items) x →
            ResetRefines result self.old self.new (map state rack.new.items) x }
        ensures follows { Follows result self.old self.new
            (map state rack.old.items) (map state rack.new.items) }
        ensures halts { Halts result self.old self.new }
        ensures bytes { HaveBytes (steps_in result) }
        ensures clocks { self.new.phi ≤ self.old.phi + RESET_PHI }
        ensures fits { Fits self.new (map state rack.new.items) }
        ensures asked { sum_by queries rack.new.items ≤ sum_by queries rack.old.items
            + allowances (length rack.old.items) self.old.index (tried self.old.mode result) }
        ensures chips { length rack.new.items ≡ length rack.old.items }
    {
        let mut steps = Record::new();
        let mut cut = Unserved::place();
        let fetched = fetch_first(rack, &mut self.bus, &mut steps, &mut cut);
        steps.bytes_law();
        match fetched {
            Ok(opcode) => {
                self.cpu.fetch(opcode);
                self.flow = Flow::of(self.bus.probe.counters());
                self.phi += RESET_PHI;
                self.mode = Mode::Running;
                Outcome::Done { wrote: None, steps }
            }
            Err(NotServed) => {
                self.mode = Mode::Stopped(cut.to_stopped_by());
                let Unserved { fault, long } = cut;
                Outcome::Fault { fault, long, steps }
            }
        }
    }

    /// The next instruction, with the interrupt at its end, on a machine that was reset. Where a bus step of it isn't served, the
    /// registers and the clocks are those before it, while the probe and the chips have heard its served steps; and from then on each
    /// call answers the same, with no step, and changes nothing. So it does at an opcode that is reserved.
    // One function, and not inlined, since each call that gives an outcome copies it.
    #[inline(never)]
    pub fn instr(&mut self, rack: &mut Rack) -> Outcome
        requires few { length rack.old.items ≤ MOST_CHIPS }
        requires mode { IsReset self.old.mode }
        requires fits { Fits self.old (map state rack.old.items) }
        requires phi { self.old.phi < 2 ^ 62 }
        ensures advances { Advances result self.old self.new
            (map state rack.old.items) (map state rack.new.items) }
        ensures follows { Follows result self.old self.new
            (map state rack.old.items) (map state rack.new.items) }
        ensures halts { Halts result self.old self.new }
        ensures bytes { HaveBytes (steps_in result) }
        ensures fits { Fits self.new (map state rack.new.items) }
        ensures asked { sum_by queries rack.new.items ≤ sum_by queries rack.old.items
            + allowances (length rack.old.items) self.old.index (tried self.old.mode result) }
        ensures stopped { (why : StoppedBy) → self.old.mode ≡ Mode.Stopped why →
            StaysStopped why result self.old self.new
            (map state rack.old.items) (map state rack.new.items) }
        ensures chips { length rack.new.items ≡ length rack.old.items }
    {
        if let Mode::Stopped(why) = &self.mode {
            return why.outcome();
        }
        let plan = match self.cpu.plan() {
            Ok(plan) => plan,
            Err(Reserved { code }) => {
                let at = self.stop_at_reserved(code);
                return Outcome::Reserved { at, code };
            }
        };
        let code = self.cpu.opcode();
        let kept = self.cpu.kept();
        let mut steps = Record::new();
        let mut unserved = Unserved::place();
        let carried = carry_out(
            &mut self.cpu,
            &mut self.bus,
            rack,
            &plan,
            &self.chain,
            &mut steps,
            &mut unserved,
        );
        match carried {
            Ok(chosen) => {
                self.flow = Flow::of(self.bus.probe.counters());
                self.phi += clocks_of_plan(chosen, &plan);
                let wrote = done_write(code, self.phi, self.cpu.ports(), steps.as_slice());
                Outcome::Done { wrote, steps }
            }
            Err(NotServed) => {
                steps.bytes_law();
                self.cpu.restore(kept);
                self.mode = Mode::Stopped(unserved.to_stopped_by());
                let Unserved { fault, long } = unserved;
                Outcome::Fault { fault, long, steps }
            }
        }
    }

    /// Stops at the opcode held, which no instruction has. It answers the address at which it stands.
    fn stop_at_reserved(&mut self, code: u8) -> u16
        ensures at { result ≡ self.old.flow.p }
        ensures stopped { self.new ≡ halted (StoppedBy.Reserved self.old.flow.p code)
            self.old.probe self.old.index self.old }
    {
        let at = self.flow.p;
        self.mode = Mode::Stopped(StoppedBy::Reserved { at, code });
        at
    }

    /// A key byte from outside: at port 0 or 1 it is the processor's own, and at any other port it comes to every chip. The port then reads
    /// as its latch OR this byte. On a port that is no chip's data port nothing changes.
    pub fn keys(&mut self, rack: &mut Rack, port: u8, byte: u8)
        requires few { length rack.old.items ≤ MOST_CHIPS }
        requires fits { Fits self.old (map state rack.old.items) }
        ensures machine { self.new ≡ keyed_machine port byte self.old }
        ensures keyed { RackKeyed port byte (map state rack.old.items) (map state rack.new.items) }
        ensures powered { (x : Position) → IsPowered self.old (map state rack.old.items) x →
            IsPowered self.new (map state rack.new.items) (with_event (Keys port byte) x) }
        ensures running { (x : Position) → Represents self.old (map state rack.old.items) x →
            Represents self.new (map state rack.new.items) (with_event (Keys port byte) x) }
        ensures fits { Fits self.new (map state rack.new.items) }
        ensures asked { map queries rack.new.items ≡ map queries rack.old.items }
        ensures chips { length rack.new.items ≡ length rack.old.items }
    {
        if port < OWN_PORTS {
            self.cpu.keys(port, byte);
        } else {
            key_all(rack, port, byte);
        }
    }

    /// An external pulse at `chip`, by its place in the description: the chip latches a request where the low two bits of its control are
    /// 1 (Mostek 3851 data sheet in outline). Where there is no such chip nothing changes.
    pub fn pulse(&mut self, rack: &mut Rack, chip: u8)
        requires few { length rack.old.items ≤ MOST_CHIPS }
        requires fits { Fits self.old (map state rack.old.items) }
        ensures machine { self.new ≡ self.old }
        ensures pulsed { RackPulsed (slice_get self.old.chain chip)
            (map state rack.old.items) (map state rack.new.items) }
        ensures powered { (x : Position) → IsPowered self.old (map state rack.old.items) x →
            IsPowered self.new (map state rack.new.items) (with_event (Pulse chip) x) }
        ensures running { (x : Position) → Represents self.old (map state rack.old.items) x →
            Represents self.new (map state rack.new.items) (with_event (Pulse chip) x) }
        ensures fits { Fits self.new (map state rack.new.items) }
        ensures asked { map queries rack.new.items ≡ map queries rack.old.items }
        ensures chips { length rack.new.items ≡ length rack.old.items }
    {
        if let Some(socket) = self.chain.get(usize::from(chip)) {
            pulse_at(rack, socket);
        }
    }

    /// The registers, after the last instruction that was done: the address of the one that comes next, the stack register, the data
    /// counters, the accumulator, ISAR, the status word and the scratchpad.
    pub fn regs(&self) -> Regs
        ensures regs { result ≡ told_regs (record {
          flow = self.now.flow;
          registers = self.now.cpu.registers;
          keys = [];
          writes = [];
          acknowledged = [];
          pulses = [];
          count = 0;
          phi = 0;
        }) }
        ensures isar { result.isar < 64 }
    {
        self.cpu
            .regs(self.flow.p, self.flow.p1, self.flow.d0, self.flow.d1)
    }

    /// The address of the instruction that comes next, after the last one that was done.
    pub fn next_address(&self) -> u16
        ensures { result ≡ self.now.flow.p }
    {
        self.flow.p
    }

    /// The sockets of the chips described.
    pub fn chain(&self) -> &Chain
        ensures { result.now ≡ self.now.chain }
    {
        &self.chain
    }

    /// The probe's counters. After a bus step that wasn't served they are those after the last served one.
    pub fn reference(&self) -> Counters
        ensures { result ≡ probe_counters self.now.probe }
    {
        self.bus.probe.counters()
    }

    /// The clocks of reset and of the instructions that were done, in Φ.
    pub fn phi(&self) -> u64
        ensures { result ≡ self.now.phi }
    {
        self.phi
    }
}
