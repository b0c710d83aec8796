// The 3850: its registers, its own ports, and the opcode that it holds.
use super::instruction_table::InstructionTable;
use super::kept::Kept;
use super::own_ports::OwnPorts;
use super::registers::RegisterFile;
use super::steps::Steps;
use console_spec::Regs;
use f8_ops::{Reserved, Row};
use std::marker::Model;

/// The 3850: its registers, its own two ports, and the opcode that it holds. It has no program counter. Contracts see all three.
///
/// An instruction is its bus steps, in order: `plan` tells them as it begins, `drive` the byte that the CPU places in a step, and
/// `take` is its part after a step that was served (Fairchild F8 User's Guide; Mostek 3850 data sheet).
#[derive(Debug, Drop)]
pub struct Cpu {
    registers: RegisterFile,
    ports: OwnPorts,
    opcode: u8,

    /// What each opcode says of its instruction.
    table: InstructionTable,
}

impl Model for Cpu {
    ghost use Rattle.cpu3850.specs.CpuSteps.{CpuState};

    ghost Value = { CpuState };

    ghost view = { λ c. record { registers = c.registers; ports = c.ports; opcode = c.opcode } };
}

impl Cpu {
    ghost use Rattle.std.specs.Prelude.{◌≡◌, ◌↔◌, ◌<◌, false, [], length, IsErr, IsOk, IfOk, IfErr, IsSome};
    ghost use Rattle.f8_spec.specs.Instructions.{IsReserved, decoded};
    ghost use Rattle.console_spec.specs.Processor.{told_regs};
    ghost use Rattle.cpu3850.specs.CpuPorts.{with_own_key};
    ghost use Rattle.cpu3850.specs.CpuSteps.{AreInRange, powered, planned, driven, taken};
    ghost use Rattle.cpu3850.specs.Keeping.{kept_of, restored};

    /// The CPU at power-on: the power byte is in the accumulator, in ISAR modulo 64 and in every byte of the scratchpad, W, the latches
    /// and the key bytes are 0, and the opcode 00 is held. Power-on contents are this project's own.
    pub fn power(fill: u8) -> Cpu
        ensures { result ≡ powered fill }
    {
        Cpu {
            registers: RegisterFile::power(fill),
            ports: OwnPorts::power(),
            opcode: 0x00,
            table: InstructionTable::new(),
        }
    }

    /// The steps of the instruction whose opcode is held, as it begins, or [`Reserved`] with that opcode exactly where no instruction
    /// has it. A step that isn't the last leaves the plan as it is.
    pub fn plan(&self) -> Result<Steps, Reserved>
        ensures steps { IfOk result (λ steps. steps ≡ planned self.now) }
        ensures instruction { IsOk result ↔ IsSome (decoded self.now.opcode) }
        ensures reserved { IsErr result ↔ IsReserved self.now.opcode }
        ensures which { IfErr result (λ error. error.code ≡ self.now.opcode) }
    {
        match self.table.instruction(self.opcode) {
            Some(held) => Ok(Steps::of(if self.registers.takes(held.op) {
                held.steps_taken
            } else {
                held.steps
            })),
            None => Err(Reserved { code: self.opcode }),
        }
    }

    /// The byte that the CPU places in the step at this index of the plan, and 00 in each step whose byte is another's: a register
    /// where one is sent to a counter, memory or a port, the port's number in the first step of `INS` and `OUTS` of the ports 4 to
    /// 15, and the high byte of the target in the last step of `PI` and `JMP` before the fetch.
    pub fn drive(&self, index: u8) -> u8
        requires { index < length (planned self.now) }
        ensures { result ≡ driven index self.now }
    {
        match self.table.instruction(self.opcode) {
            Some(held) => self.registers.driven(held.row, held.port, index),
            None => unreachable!(),
        }
    }

    /// What the CPU does with the byte of the step at this index of the plan. The results of an instruction come with one step, but
    /// that `LR K,P`, `LR Q,DC` and `LR H,DC` load their registers byte by byte; the byte of the last step is the opcode held from
    /// then on. `INS` and `OUTS` of port 0 or 1 read and write a port of the CPU's own in their first step, whatever is on the bus.
    pub fn take(&mut self, index: u8, byte: u8)
        requires { index < length (planned self.old) }
        ensures { self.new ≡ taken index byte self.old }
    {
        let Some(held) = self.table.instruction(self.opcode) else {
            unreachable!()
        };
        let is_last = index == held.last_step;
        match held.row {
            Row::StackToK | Row::DataToPair => {
                if index < 2 {
                    self.registers.set_scratch(held.pair + index, byte);
                }
            }
            _ => {
                if index == held.effect_at {
                    let read = self.ports.read(held.op, byte);
                    self.ports.put(held.op, self.registers.accumulator);
                    self.registers
                        .execute(held.op, if is_last { 0 } else { read });
                }
            }
        }
        if is_last {
            self.fetch(byte);
        }
    }

    /// The latches of the CPU's own ports: the bytes that `OUTS 0` and `OUTS 1` last put there.
    pub fn ports(&self) -> [u8; 2]
        ensures { result ≡ self.now.ports.latches }
    {
        self.ports.latches()
    }

    /// The key byte of port 0 or 1 becomes this. The port reads as its latch OR its key byte.
    pub fn keys(&mut self, port: u8, byte: u8)
        requires { port < 2 }
        ensures { self.new ≡ record self.old { ports = with_own_key port byte self.old.ports } }
    {
        self.ports.set_key(port, byte);
    }

    /// The interrupt control bit: interrupts are enabled.
    pub fn icb(&self) -> bool
        ensures { result ≡ self.now.registers.status.icb }
    {
        self.registers.flags.icb
    }

    /// The opcode held.
    pub fn opcode(&self) -> u8
        ensures { result ≡ self.now.opcode }
    {
        self.opcode
    }

    /// Holds this opcode, as at the end of reset.
    pub fn fetch(&mut self, code: u8)
        ensures { self.new ≡ record self.old { opcode = code } }
    {
        self.opcode = code;
    }

    /// Clears the interrupt control bit, as where an interrupt is taken.
    pub fn vectored(&mut self)
        ensures { self.new ≡ record self.old {
          registers =
              record self.old.registers {
                status =
                    record self.old.registers.status { icb = false };
              };
        } }
    {
        self.registers.flags.icb = false;
    }

    /// The registers of the CPU beside these counters, which it doesn't have itself.
    pub fn regs(&self, p: u16, p1: u16, d0: u16, d1: u16) -> Regs
        ensures regs { result ≡ told_regs (record {
          flow = record { p = p; p1 = p1; d0 = d0; d1 = d1 };
          registers = self.now.registers;
          keys = [];
          writes = [];
          acknowledged = [];
          pulses = [];
          count = 0;
          phi = 0;
        }) }
        ensures isar { result.isar < 64 }
    {
        self.registers.regs(p, p1, d0, d1)
    }

    /// What the instruction held may change before its last step.
    pub fn kept(&self) -> Kept
        ensures kept { result ≡ kept_of self.now }
        ensures ranges { AreInRange self.now.registers }
    {
        let pair = match self.table.instruction(self.opcode) {
            Some(held) => held.pair,
            None => 12,
        };
        self.registers.kept(pair, self.ports.latches())
    }

    /// Puts back what was kept as the instruction held began, where its last step isn't served.
    pub fn restore(&mut self, kept: Kept)
        ensures { self.new ≡ restored kept self.old }
    {
        self.registers.restore(kept);
        self.ports.set_latches(kept.latches);
    }
}
