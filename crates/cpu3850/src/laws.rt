// Laws that bind the steps of an instruction to the flat machine.
ghost use Rattle.std.specs.Prelude.{◌≡◌, ℕ, ◌+◌, ◌<◌, ◌≤◌, List, Some, length};
ghost use Rattle.f8_spec.specs.declared.instructions.Op.{Op};
ghost use Rattle.f8_spec.specs.Instructions.{decoded, row_of};
ghost use Rattle.f8_spec.specs.MicroSteps.{steps_of};
ghost use Rattle.f8_spec.specs.BusArbitration.{Seat};
ghost use Rattle.console_spec.specs.Processor.{Inputs, State, is_taken, at_power, with_key, own_inputs};
ghost use Rattle.console_spec.specs.FlatStep.{after_instruction};
ghost use Rattle.cpu3850.specs.CpuPorts.{with_own_key, put_by};
ghost use Rattle.cpu3850.specs.CpuSteps.{CpuState, powered, planned, taken};
ghost use Rattle.cpu3850.specs.Keeping.{IsRestorable};
ghost use Rattle.cpu3850.specs.Reaching.{from_cpu, Reaches, done};
ghost use Rattle.cpu3850.specs.OwnWrites.{own_ports, LeaveOwnPorts};

/// A law of the CPU, and no work: a step that isn't the last of its instruction leaves the plan as it is, so that the places of the
/// later steps stay allowed.
pub fn plan_law()
    ensures { (index byte : ℕ) (c : CpuState) → index + 1 < length (planned c) →
        planned (taken index byte c) ≡ planned c }
{}

/// A law of the CPU, and no work: after any of an instruction's steps but the last, `Cpu::restore` of what `Cpu::kept` told as the
/// instruction began gives the CPU as it was then.
pub fn restore_law()
    ensures start { (c : CpuState) → IsRestorable c c }
    ensures step { (start c : CpuState) (index byte : ℕ) → index + 1 < length (planned c) →
        IsRestorable start c → IsRestorable start (taken index byte c) }
{}

/// A law of the CPU, and no work: along the steps of the instruction whose opcode is held, with the bytes of the flat machine, the
/// CPU drives the byte of each step that is its own or nobody's, and comes to the flat machine's registers after the instruction, with
/// what `OUTS` puts into a port of its own and the byte of the last step as the opcode held. `INS` of port 0 or 1 gets what stands in
/// the CPU's own port.
pub fn instruction_law()
    ensures { (op : Op) (i : Inputs) (c : CpuState) → decoded c.opcode ≡ Some op →
        Reaches (from_cpu op c i) 0 (steps_of (row_of op) (is_taken op c.registers)) c
        (done op (from_cpu op c i) c) }
{}

/// A law of the CPU, and no work: its own ports go with the ports 0 and 1 of the flat machine. They are the same at power-on, as a key
/// byte comes, and after an instruction, where no chip has the port 0 or 1; and what the flat machine gives an instruction is then what
/// [`instruction_law`] speaks of.
pub fn port_law()
    ensures power { (fill : ℕ) → (powered fill).ports ≡ own_ports (at_power fill) }
    ensures keys { (port byte : ℕ) (s : State) → 2 ≤ length s.keys →
        own_ports (with_key port byte s) ≡ with_own_key port byte (own_ports s) }
    ensures inputs { (op : Op) (rom : List ℕ) (seats : List Seat) (s : State) (opcode : ℕ) →
        from_cpu op (record { registers = s.registers; ports = own_ports s; opcode = opcode })
        (own_inputs op rom seats s) ≡ own_inputs op rom seats s }
    ensures written { (op : Op) (rom : List ℕ) (seats : List Seat) (chain : List ℕ) (s : State) →
        LeaveOwnPorts seats → own_ports (after_instruction op rom seats chain s)
        ≡ put_by op s.registers.accumulator (own_ports s) }
{}
