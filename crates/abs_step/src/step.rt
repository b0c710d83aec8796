// One step of the checker from a state at a point.
ghost use Rattle.std.specs.Prelude.{◌≡◌, ◌<◌, None, Some, length, IfOk, IfErr, option_and_then};
ghost use Rattle.std.specs.List.{AllByRecursion};
ghost use Rattle.std.specs.Option.{ForSome};
ghost use Rattle.f8_spec.specs.Instructions.{InRange, decoded, row_of};
ghost use Rattle.abs_domain.specs.StateView.{state_of};
ghost use Rattle.abs_step.specs.Successors.{HasTrackedBytes, start_point, start_state};
ghost use Rattle.abs_step.specs.Successors.{successors};
ghost use Rattle.abs_step.specs.Safety.{first_reason, reasons, unsafe_reason};
ghost use Rattle.abs_step.specs.MapView.{view_of};
ghost use Rattle.abs_step.specs.StepView.{invariant_at, next_at};
ghost use Rattle.abs_step.specs.StepView.{reasons_before, reasons_after};
ghost use Rattle.abs_step.specs.WorkView.{counters_view, writes_view};

use super::counters::Counters;
use super::exits::Exits;
use super::hazards::{
    any_blurred, code_reason, goes_by_data, jump_is_lost, keeps_interrupts_out, may_be_shared,
    may_part, operand_reason, port_is_bad, return_is_lost, return_is_unheld, return_is_unset,
    vector_is_lost,
};
use super::inputs::Inputs;
use super::registers::Registers;
use super::successors::Successors;
use super::tracked::tracked_bytes;
use super::ways::ways_of;
use super::writes::Writes;
use abs_domain::{Abs, Bit, Digit, MOST_TRACKED, Point, Reason, SCRATCHPAD_SIZE, Val, Word};
use cart_data::Split;
use f8_ops::{Op, decode, row_of};
use memory_map::Map;

/// What is known as reset ends: the status word is clear, and both data counters are 0.
const START: Abs = Abs {
    a: Val::Any,
    regs: [Val::Any; SCRATCHPAD_SIZE],
    hi: Digit::Any,
    lo: Digit::Any,
    w: [Bit::Known(false); 5],
    d0: Word::Known(0),
    d1: Word::Known(0),
    c: Word::Any,
    s0: false,
    s1: false,
    p0: false,
    p1: false,
};

/// Where a run starts, and what is known there (this project's own): at address 0, with any stack registers, and any bytes in the tracked
/// registers.
#[tactic(auto, using(crate::proofs::Fitting::start_fits))]
pub fn start(split: &Split) -> (Point, Abs)
    ensures point { result.0 ≡ start_point }
    ensures state { state_of result.1 ≡ start_state }
    ensures fits { HasTrackedBytes split.now (invariant_at result.0 result.1) }
{
    let point = Point {
        at: 0,
        ret: None,
        split: [None; MOST_TRACKED],
    };
    (point, START)
}

/// The instruction at an address, where a byte stays there and it is an opcode (this project's own).
pub fn instruction_at(map: &Map, at: u16) -> Option<Op>
    ensures instruction { result ≡ option_and_then decoded ((view_of map.now).byte at) }
    ensures in_range { ForSome result InRange }
{
    decode(map.byte(at)?).ok()
}

/// What holds after the instruction at a point, at each point to which it, or an interrupt at its end, may lead; or why the state isn't safe
/// there (this project's own). Of the chips it learns by the map.
#[tactic(auto, unfolding(crate::specs::Safety::unsafe_reason))]
pub fn after(abs: &Abs, point: &Point, split: &Split, map: &Map) -> Result<Successors, Reason>
    requires { HasTrackedBytes split.now (invariant_at point.now abs.now) }
    ensures safe { IfOk result (λ _. unsafe_reason (view_of map.now) split.now
        (invariant_at point.now abs.now) ≡ None) }
    ensures reason { IfErr result (λ reason. unsafe_reason (view_of map.now) split.now
        (invariant_at point.now abs.now) ≡ Some reason) }
    ensures successors { IfOk result (λ ways. ways
        ≡ next_at (view_of map.now) split.now (invariant_at point.now abs.now)) }
    ensures some { IfOk result (λ ways. 0 < length ways) }
    ensures fits { IfOk result (λ ways. AllByRecursion (HasTrackedBytes split.now) ways) }
{
    if let Some(reason) = code_reason(map, point.at) {
        return Err(reason);
    }
    match instruction_at(map, point.at) {
        Some(op) => after_instruction(op, abs, point, split, map),
        None => Err(Reason::ReservedOpcode),
    }
}

/// What holds after an instruction, or the first reason against it.
fn after_instruction(
    op: Op,
    abs: &Abs,
    point: &Point,
    split: &Split,
    map: &Map,
) -> Result<Successors, Reason>
    requires { InRange op }
    ensures safe { IfOk result (λ _. first_reason (reasons op (view_of map.now) split.now
        (invariant_at point.now abs.now)) ≡ None) }
    ensures reason { IfErr result (λ reason. first_reason (reasons op (view_of map.now) split.now
        (invariant_at point.now abs.now)) ≡ Some reason) }
    ensures successors { IfOk result (λ ways. ways
        ≡ successors op (view_of map.now) split.now (invariant_at point.now abs.now)) }
    ensures some { IfOk result (λ ways. 0 < length ways) }
    ensures fits { IfOk result (λ ways. AllByRecursion (HasTrackedBytes split.now) ways) }
{
    let mut registers = Registers::of(abs);
    let counters = Counters::of(abs);
    let inputs = Inputs::at(op, map, point, counters.d0, &registers);
    let writes = registers.writes(op, inputs.stack, inputs.counter);
    if let Some(reason) = operand_reason(op, map, point.at) {
        return Err(reason);
    }
    if let Some(reason) = reason_before(op, map, point.ret, inputs.operand, &registers, counters) {
        return Err(reason);
    }
    registers.step(op, inputs.used_byte(row_of(op)), writes);
    let icb = registers.icb();
    if let Some(reason) = reason_after(op, map, split, icb, counters.d0, writes) {
        return Err(reason);
    }
    let exits = Exits::of(op, &inputs, point.at, point.ret);
    let ways = ways_of(exits, icb, keeps_interrupts_out(op, icb), map);
    let state = registers.state_with(counters.after(row_of(op), &inputs));
    Ok(Successors::along(ways, state, tracked_bytes(split, &registers)))
}

/// The first reason against an instruction, by what holds before it, behind those of its bytes.
fn reason_before(
    op: Op,
    map: &Map,
    ret: Option<u16>,
    operand: Option<u8>,
    registers: &Registers,
    counters: Counters,
) -> Option<Reason>
    ensures { result ≡ first_reason (reasons_before op (view_of map.now) ret operand
        registers.now (counters_view counters)) }
{
    let row = row_of(op);
    if jump_is_lost(row, registers) {
        Some(Reason::UnknownJump)
    } else if return_is_lost(row, registers) {
        Some(Reason::UnknownReturn)
    } else if return_is_unset(row, ret) {
        Some(Reason::UnsetReturn)
    } else if may_part(row, map, counters) {
        Some(Reason::DataCountersApart)
    } else if return_is_unheld(row, map, ret) {
        Some(Reason::ReturnNotHeldOnce)
    } else if port_is_bad(op, map, operand) {
        Some(Reason::BadPort)
    } else {
        None
    }
}

/// The first reason against it by the interrupt control bit after it, by D0 before it, and by what it writes.
fn reason_after(
    op: Op,
    map: &Map,
    split: &Split,
    icb: Option<bool>,
    d0: Option<u16>,
    writes: Writes,
) -> Option<Reason>
    ensures { result ≡ first_reason (reasons_after op (view_of map.now) split.now icb d0
        (writes_view writes)) }
{
    if vector_is_lost(op, map, icb) {
        Some(Reason::UnknownVector)
    } else if goes_by_data(row_of(op)) && may_be_shared(map, d0) {
        Some(Reason::SharedDataAddress)
    } else if any_blurred(writes, split) {
        Some(Reason::TrackedRegisterBlurred)
    } else {
        None
    }
}
