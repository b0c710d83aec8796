// The instruction set on flat memory, an instruction at a time.
use super::counters::Flow;
use super::flat_memory::FlatMemory;
use super::instruction_table::{Instruction, InstructionTable};
use super::ports::{PortByte, Ports, clocked};
use super::register_file::RegisterFile;
use super::requests::Requests;
use chip_face::{ChipList, Powers};
use console_board::PortWrite;
use console_spec::Regs;
use f8_ops::registers::{H, K, Q};
use f8_ops::{
    INTERRUPT_PHI, MOST_INTERRUPTED_PHI, MOST_PHI, OWN_PORTS, Op, RESET_PHI, Reserved, Row, shields,
};
use f8_spec::Memory;
use f8_words::wrap_add;
use memory_map::Map;
use std::alloc::Global;
use std::marker::Model;

/// What an instruction did beyond registers and memory: its write, where a port took one, with the clocks at the instruction's end, and
/// whether an interrupt was taken at its end.
#[derive(Clone, Copy, Debug, PartialEq, Eq)]
pub struct Done {
    pub wrote: Option<PortWrite>,
    pub vectored: bool,
}

/// The F8 instruction set over one flat memory, one set of counters and one set of ports (Fairchild F8 User's Guide). It does a whole
/// instruction and the interrupt at its end at once, with no chip and no bus step.
#[derive(Drop)]
pub struct Isa {
    instructions: InstructionTable,
    memory: FlatMemory,
    ports: Ports,
    flow: Flow,
    registers: RegisterFile,
    requests: Requests,

    /// The clocks since power-on.
    phi: u64,
}

impl Model for Isa {
    ghost use Rattle.f8_isa.specs.IsaState.{IsaState};
    ghost use Rattle.f8_isa.specs.Counters.{flow_of};

    ghost Value = { IsaState };

    ghost view = { λ m. record {
      flow = flow_of m.flow;
      registers = m.registers;
      phi = m.phi;
      memory = m.memory.bytes;
      ram_pages = m.memory.ram_pages;
      ports = m.ports;
      requests = m.requests;
    } };
}

impl Isa {
    ghost use Rattle.std.specs.Prelude.{◌≡◌, ◌+◌, ◌^◌, ◌<◌, ◌≤◌, ℕ, true, None, Some, IfOk, IfErr, OnErr, is_some};
    ghost use Rattle.f8_spec.specs.Instructions.{InRange, row_of};
    ghost use Rattle.f8_spec.specs.Words.{word, places_on, displaced};
    ghost use Rattle.f8_spec.specs.declared.instructions.Op.{Op};
    ghost use Rattle.console_spec.specs.AddressSpace.{byte_at};
    ghost use Rattle.console_spec.specs.InterruptRequests.{no_history};
    ghost use Rattle.console_spec.specs.Processor.{used_byte, result_of, is_taken, flow_after, told_regs};
    ghost use Rattle.console_spec.specs.Run.{Reserved as StopReserved, power_position, chain_in_order};
    ghost use Rattle.console_spec.specs.Run.{position_after_reset};
    ghost use Rattle.memory_map.specs.MapOf.{IsMapOf, views_of};
    ghost use Rattle.f8_isa.specs.Counters.{flow_of};
    ghost use Rattle.f8_isa.specs.InstructionRows.{IsInstruction};
    ghost use Rattle.f8_isa.specs.Ports.{clocked, value_read, with_key_byte};
    ghost use Rattle.f8_isa.specs.Requests.{asking_place, pulse_at_place};
    ghost use Rattle.f8_isa.specs.IsaState.{state_of, kept_inputs, kept_write, isa_after};
    ghost use Rattle.f8_isa.specs.IsaState.{sample_time, chosen_place, with_interrupt, finished, VectorFits};
    ghost use Rattle.f8_isa.specs.IsaState.{GoesTo, TellsInterrupt, StopsBy, StandsAt, InReach, TakesKey, TakesPulse};
    ghost use Rattle.f8_isa.specs.IsaState.{TakesEarlyPulse};

    /// A program on some chips, after power-on with a byte and reset, or want of memory. The map is that of the chips; what it tells is
    /// copied. How each chip is powered on is said in the order of the chips; where the list ends before a chip, nothing is said of it.
    pub fn new(
        alloc: Global,
        map: &Map,
        chips: &ChipList,
        powers: &Powers,
        fill: u8,
    ) -> Result<Isa, Memory>
        requires map { IsMapOf map.now chips.now }
        ensures { let vs = views_of chips.now in IfOk result (λ isa. StandsAt isa 0
            (position_after_reset (power_position vs (chain_in_order vs) powers.now fill))) }
    {
        let memory = FlatMemory::new(alloc, map, powers, fill)?;
        let ports = Ports::new(map);
        let Ok(requests) = Requests::new(alloc, chips) else {
            return Err(Memory);
        };
        Ok(Isa {
            instructions: InstructionTable::new(),
            memory,
            ports,
            flow: Flow::default(),
            registers: RegisterFile::at_power(fill),
            requests,
            phi: RESET_PHI,
        })
    }

    /// The next instruction with the interrupt at its end, or [`Reserved`] with the opcode, exactly where no instruction has it; then
    /// nothing changes. An interrupt is taken where the instruction doesn't shield its end, the interrupt control bit is set after it, and
    /// a chip asks as its last fetch would begin: the first one of the description. It takes the place of that fetch.
    #[inline]
    pub fn step(&mut self) -> Result<Done, Reserved>
        requires { self.old.phi < 2 ^ 62 }
        ensures goes { IfOk result (λ done. GoesTo self.old self.new done.wrote) }
        ensures interrupt { IfOk result (λ done. TellsInterrupt self.old done.vectored) }
        ensures clocks { self.new.phi ≤ self.old.phi + MOST_INTERRUPTED_PHI }
        ensures onward { self.old.phi ≤ self.new.phi }
        ensures stops { IfErr result (λ error. StopsBy self.old
            (StopReserved self.old.flow.p error.code)) }
        ensures same { OnErr result (self.new ≡ self.old) }
    {
        let code = self.memory.byte(self.flow.p);
        let Some(instruction) = self.instructions.instruction(code) else {
            return Err(Reserved { code });
        };
        let taken = self.carry_out(instruction);
        let vectored = self.finish(instruction);
        Ok(Done {
            wrote: clocked(taken, self.phi),
            vectored,
        })
    }

    /// Sets the key byte of a port. It is read there together with what was last written to the port.
    pub fn keys(&mut self, port: u8, byte: u8)
        ensures stands { TakesKey port byte self.old self.new }
        ensures kept { self.new ≡ record self.old {
          ports = with_key_byte port byte
              self.old.ports;
        } }
    {
        self.ports.set_key(port, byte);
    }

    /// A pulse at the external interrupt pin of a chip, by its place in the description. Where there is no such chip nothing changes.
    pub fn pulse(&mut self, chip: u8)
        ensures stands { TakesPulse chip self.old self.new }
        ensures early { TakesEarlyPulse chip self.old self.new }
        ensures kept { self.new ≡ record self.old { requests = pulse_at_place chip self.old.requests } }
    {
        self.requests.pulse(chip);
    }

    /// The interrupt at the end of an instruction that is done but for it, if one is taken, and whether one is. Where the interrupt control
    /// bit is clear, or the instruction shields its end, no chip is asked.
    #[inline]
    fn finish(&mut self, instruction: Instruction) -> bool
        requires right { IsInstruction instruction }
        requires phi { self.old.phi < 2 ^ 63 }
        ensures state { self.new ≡ finished instruction.op self.old }
        ensures vectored { result ≡ is_some (chosen_place instruction.op self.old) }
        ensures reach { VectorFits (chosen_place instruction.op self.old) self.old }
    {
        self.registers.icb()
            && !shields(instruction.op)
            && self.take_interrupt(self.sample_time(instruction))
    }

    /// The interrupt at an end where the chips are asked, by the clocks as the last fetch began, and whether there is one.
    // Not inlined, so that the end of every other instruction stays a test.
    #[inline(never)]
    fn take_interrupt(&mut self, time: u64) -> bool
        requires { time < 2 ^ 63 }
        ensures state { let chosen = asking_place time self.old.requests in
            self.new ≡ with_interrupt chosen time self.old }
        ensures taken { result ≡ is_some (asking_place time self.old.requests) }
        ensures reach { VectorFits (asking_place time self.old.requests) self.old }
    {
        match self.requests.first_asking(time) {
            Some(place) => {
                self.interrupt(place, time);
                true
            }
            None => false,
        }
    }

    /// The clocks as the last fetch of an instruction began that is done but for its interrupt.
    fn sample_time(&self, instruction: Instruction) -> u64
        requires { IsInstruction instruction }
        ensures is { result ≡ sample_time instruction.op self.now }
        ensures before { result ≤ self.now.phi }
    {
        self.phi.saturating_sub(instruction.fetch_phi())
    }

    /// The interrupt of the chip in a place of the description, in place of the fetch that began at a time.
    fn interrupt(&mut self, place: usize, time: u64)
        requires { time < 2 ^ 63 }
        ensures state { self.new ≡ with_interrupt (Some place) time self.old }
        ensures reach { VectorFits (Some place) self.old }
    {
        let vector = self.requests.vector(place, &self.ports);
        self.flow = self.flow.with_stack(self.flow.p).with_next(vector);
        self.registers.clear_icb();
        self.phi = time + INTERRUPT_PHI;
        self.requests.acknowledge(place, self.phi);
    }

    /// A whole instruction, with the byte that a port takes.
    #[inline]
    fn carry_out(&mut self, instruction: Instruction) -> Option<PortByte>
        requires right { IsInstruction instruction }
        requires phi { self.old.phi < 2 ^ 62 }
        ensures state { self.new ≡ isa_after instruction.op self.old }
        ensures taken { (phi : ℕ) → clocked phi result ≡ kept_write instruction.op self.old phi }
        ensures clocks { self.new.phi ≤ self.old.phi + MOST_PHI }
        ensures onward { self.old.phi ≤ self.new.phi }
        ensures ranges { InReach instruction.op self.old }
    {
        if instruction.row == Row::Plain {
            self.carry_out_plain(instruction);
            None
        } else {
            self.carry_out_other(instruction)
        }
    }

    /// A whole instruction of the plainest row, which most belong to.
    #[tactic(auto, using(crate::proofs::Results::plain_laws))]
    #[inline]
    fn carry_out_plain(&mut self, instruction: Instruction)
        requires right { IsInstruction instruction }
        requires plain { instruction.row ≡ Row.Plain }
        requires phi { self.old.phi < 2 ^ 62 }
        ensures state { self.new ≡ isa_after instruction.op self.old }
        ensures taken { (phi : ℕ) → kept_write instruction.op self.old phi ≡ None }
        ensures clocks { self.new.phi ≤ self.old.phi + MOST_PHI }
        ensures onward { self.old.phi ≤ self.new.phi }
        ensures ranges { InReach instruction.op self.old }
    {
        self.registers.execute(instruction.op, 0);
        self.flow.p = self.ahead(1);
        self.phi += u64::from(instruction.clocks);
    }

    /// A whole instruction of any row, with the byte that a port takes.
    #[tactic(auto, unfolding(console_spec::specs::Processor::own_inputs))]
    #[inline]
    fn carry_out_other(&mut self, instruction: Instruction) -> Option<PortByte>
        requires right { IsInstruction instruction }
        requires phi { self.old.phi < 2 ^ 62 }
        ensures state { self.new ≡ isa_after instruction.op self.old }
        ensures taken { (phi : ℕ) → clocked phi result ≡ kept_write instruction.op self.old phi }
        ensures clocks { self.new.phi ≤ self.old.phi + MOST_PHI }
        ensures onward { self.old.phi ≤ self.new.phi }
        ensures ranges { InReach instruction.op self.old }
    {
        let Instruction {
            op,
            row,
            clocks,
            clocks_taken,
        } = instruction;
        let taken = self.registers.takes_branch(op);
        let phi = self.phi + u64::from(if taken { clocks_taken } else { clocks });
        let (at, byte, operand) = (
            self.data_counter(),
            self.registers.accumulator(),
            self.operand(),
        );
        let taken_byte = self.write(op, operand);
        let flow = self.flow_after(row, taken);
        self.work(op, row);
        if row == Row::StoreData {
            self.memory.store(at, byte);
        }
        self.ports.take(taken_byte);
        self.requests.take(clocked(taken_byte, phi));
        self.flow = flow;
        self.phi = phi;
        taken_byte
    }

    #[inline]
    fn data_counter(&self) -> u16
        ensures is { result ≡ self.now.flow.d0 }
        ensures range { result < 65536 }
    {
        self.flow.d0
    }

    /// The byte behind the opcode.
    #[inline]
    fn operand(&self) -> u8
        ensures is { result ≡ byte_at self.now.memory (places_on self.now.flow.p 1) }
        ensures range { result < 256 }
    {
        self.memory.byte(self.ahead(1))
    }

    /// The byte that an instruction writes, if a port takes it.
    #[inline]
    fn write(&self, op: Op, operand: u8) -> Option<PortByte>
        requires { operand ≡ byte_at self.now.memory (places_on self.now.flow.p 1) }
        ensures { (phi : ℕ) → clocked phi result ≡ kept_write op self.now phi }
    {
        let port = match op {
            Op::Out => self.ports.if_writable(operand)?,
            Op::Outs { n } if n < OWN_PORTS => n,
            Op::Outs { n } => self.ports.if_writable(n)?,
            _ => return None,
        };
        Some(PortByte {
            port,
            byte: self.registers.accumulator(),
        })
    }

    /// The byte that an instruction reads at its port, and 00 where it reads none.
    #[inline]
    fn read(&self, op: Op) -> u8
        ensures { result ≡ value_read op (byte_at self.now.memory (places_on self.now.flow.p 1))
            self.now.ports }
    {
        match op {
            Op::In => self.ports.chip_byte(self.operand()),
            Op::Ins { n } if n < OWN_PORTS => self.ports.own_byte(n),
            Op::Ins { n } => self.ports.chip_byte(n),
            _ => 0,
        }
    }

    /// What an instruction does to the registers.
    #[tactic(auto, using(crate::proofs::Results::result_of_effect), unfolding(console_spec::specs::Processor::own_inputs))]
    #[inline]
    fn work(&mut self, op: Op, row: Row)
        requires row { row ≡ row_of op }
        requires in_range { InRange op }
        ensures { self.new ≡ record self.old {
          registers = result_of op
              (kept_inputs op self.old) self.old.registers;
        } }
    {
        match op {
            Op::LrKP => self.registers.set_pair(K, self.flow.p1),
            Op::LrQDc => self.registers.set_pair(Q, self.flow.d0),
            Op::LrHDc => self.registers.set_pair(H, self.flow.d0),
            _ => {
                let byte = self.used_byte(op, row);
                self.registers.execute(op, byte);
            }
        }
    }

    /// The one byte that an instruction works with, and 00 where it needs none.
    #[tactic(auto, unfolding(console_spec::specs::Processor::own_inputs))]
    #[inline]
    fn used_byte(&self, op: Op, row: Row) -> u8
        ensures { result ≡ used_byte row (kept_inputs op self.now) }
    {
        match row {
            Row::Immediate | Row::Call | Row::Jump => self.operand(),
            Row::ReadData => self.memory.byte(self.flow.d0),
            Row::PortIn | Row::ShortIn | Row::Idle => self.read(op),
            _ => 0,
        }
    }

    /// The counters after an instruction of a row.
    #[tactic(auto, unfolding(console_spec::specs::Processor::own_inputs))]
    #[inline]
    fn flow_after(&self, row: Row, taken: bool) -> Flow
        ensures { (op : Op) → is_taken op self.now.registers ≡ taken →
            flow_of result ≡ flow_after row (kept_inputs op self.now) true self.now.flow }
    {
        let flow = self.flow;
        let after_one = flow.with_next(self.ahead(1));
        match row {
            Row::Plain
            | Row::PlainLong
            | Row::Idle
            | Row::StackToK
            | Row::DataToPair
            | Row::ShortIn
            | Row::ShortOut => after_one,
            Row::Branch | Row::BranchIsar if taken => flow.with_next(self.target()),
            Row::Immediate | Row::PortIn | Row::PortOut | Row::Branch | Row::BranchIsar =>
                flow.with_next(self.ahead(2)),
            Row::StackFromK => after_one.with_stack(self.registers.pair(K)),
            Row::CallK => flow
                .with_next(self.registers.pair(K))
                .with_stack(self.ahead(1)),
            Row::JumpQ => flow.with_next(self.registers.pair(Q)),
            Row::DataFromQ => after_one.with_data(self.registers.pair(Q)),
            Row::DataFromH => after_one.with_data(self.registers.pair(H)),
            Row::ReadData | Row::StoreData => after_one.with_data(flow.d0.wrapping_add(1)),
            Row::Return => flow.with_next(flow.p1),
            Row::Call => flow
                .with_next(self.operand_word())
                .with_stack(self.ahead(3)),
            Row::Jump => flow.with_next(self.operand_word()),
            Row::LoadData => flow.with_next(self.ahead(3)).with_data(self.operand_word()),
            Row::Exchange => after_one.with_data_exchanged(),
            Row::AddData => after_one.with_data(wrap_add(
                flow.d0,
                self.registers.accumulator().cast_signed(),
            )),
        }
    }

    /// The word behind the opcode, its high byte first.
    #[inline]
    fn operand_word(&self) -> u16
        ensures { result ≡ word (byte_at self.now.memory (places_on self.now.flow.p 1))
            (byte_at self.now.memory (places_on self.now.flow.p 2)) }
    {
        let high = self.memory.byte(self.ahead(1));
        let low = self.memory.byte(self.ahead(2));
        u16::from(high) * 256 + u16::from(low)
    }

    /// The address so many places ahead of the instruction.
    #[inline]
    fn ahead(&self, places: u16) -> u16
        ensures { result ≡ places_on self.now.flow.p places }
    {
        self.flow.p.wrapping_add(places)
    }

    /// Where a branch leads to. It counts from the address of its displacement byte.
    #[inline]
    fn target(&self) -> u16
        ensures { result ≡ displaced (places_on self.now.flow.p 1)
            (byte_at self.now.memory (places_on self.now.flow.p 1)) }
    {
        let place = self.ahead(1);
        wrap_add(place, self.memory.byte(place).cast_signed())
    }

    /// The registers between two instructions.
    #[inline]
    pub fn regs(&self) -> Regs
        ensures regs { result ≡ told_regs (state_of self.now 0 no_history) }
        ensures isar { result.isar < 64 }
    {
        Regs {
            p: self.flow.p,
            p1: self.flow.p1,
            d0: self.flow.d0,
            d1: self.flow.d1,
            a: self.registers.accumulator(),
            isar: self.registers.isar(),
            w: self.registers.status(),
            scratch: *self.registers.scratchpad(),
        }
    }

    /// The address of the next instruction.
    #[inline]
    pub fn p(&self) -> u16
        ensures { result ≡ self.now.flow.p }
    {
        self.flow.p
    }

    /// The clocks since power-on, in Φ.
    #[inline]
    pub fn phi(&self) -> u64
        ensures { result ≡ self.now.phi }
    {
        self.phi
    }

    /// The byte at an address, and 255 where no chip holds it or several do.
    #[inline]
    pub fn peek(&self, at: u16) -> u8
        ensures { result ≡ byte_at self.now.memory at }
    {
        self.memory.byte(at)
    }
}
