// The reasons against a state at its point, of which the first counts.
ghost use Rattle.std.specs.Prelude.{◌≡◌};
ghost use Rattle.f8_spec.specs.Instructions.{length_of, row_of};
ghost use Rattle.memory_map.specs.MapKinds.{is_held_once};
ghost use Rattle.console_spec.specs.Processor.{port_field};
ghost use Rattle.abs_step.specs.Safety.{first_reason, code_reasons, operand_reasons};
ghost use Rattle.abs_step.specs.Safety.{jump_is_lost, return_is_lost, return_is_unset};
ghost use Rattle.abs_step.specs.Safety.{reads_at_data, goes_by_data, may_be_held_by_psu};
ghost use Rattle.abs_step.specs.Safety.{may_part, may_be_shared};
ghost use Rattle.abs_step.specs.Safety.{return_is_unheld, port_is_bad, vector_is_lost, any_blurred};
ghost use Rattle.abs_step.specs.Vectors.{keeps_interrupts_out};
ghost use Rattle.abs_step.specs.MapView.{view_of};
ghost use Rattle.abs_step.specs.WorkView.{counters_view, writes_view};

use super::counters::Counters;
use super::inputs::ahead;
use super::registers::Registers;
use super::writes::Writes;
use abs_domain::Reason;
use cart_data::Split;
use chip_face::ChipKind;
use console_spec::Sort;
use f8_ops::registers::{K, Q};
use f8_ops::{Op, Row, length, row_of, shields};
use memory_map::Map;

/// A byte of code isn't held by one chip alone, or a store may change it.
#[tactic(auto, unfolding(memory_map::specs::MapOf::mapped_sort))]
pub fn code_reason(map: &Map, at: u16) -> Option<Reason>
    ensures { result ≡ first_reason (code_reasons (view_of map.now) at) }
{
    match map.sort(at) {
        Sort::Nothing | Sort::Shared => Some(Reason::CodeNotHeldOnce),
        Sort::Ram => Some(Reason::CodeInRam),
        Sort::Rom | Sort::Void => None,
    }
}

/// The first reason against the bytes behind an opcode.
pub fn operand_reason(op: Op, map: &Map, at: u16) -> Option<Reason>
    ensures { result ≡ first_reason (operand_reasons (length_of op) (view_of map.now) at) }
{
    match length(op) {
        2 => code_reason(map, ahead(at, 1)),
        3 => match code_reason(map, ahead(at, 1)) {
            Some(reason) => Some(reason),
            None => code_reason(map, ahead(at, 2)),
        },
        _ => None,
    }
}

/// A call or a jump by a pair of registers of which a byte isn't known.
pub fn jump_is_lost(row: Row, registers: &Registers) -> bool
    ensures { result ≡ jump_is_lost row registers.now }
{
    match row {
        Row::CallK => registers.pair(K).word().is_none(),
        Row::JumpQ => registers.pair(Q).word().is_none(),
        _ => false,
    }
}

/// A return that is loaded with an unknown byte.
pub fn return_is_lost(row: Row, registers: &Registers) -> bool
    ensures { result ≡ return_is_lost row registers.now }
{
    match row {
        Row::StackFromK => registers.pair(K).word().is_none(),
        _ => false,
    }
}

/// A return at which the copies of the stack register may differ.
pub fn return_is_unset(row: Row, ret: Option<u16>) -> bool
    ensures { result ≡ return_is_unset row ret }
{
    match row {
        Row::Return | Row::StackToK => ret.is_none(),
        _ => false,
    }
}

/// A read of a byte at D0, or of D0's own bytes.
pub fn reads_at_data(row: Row) -> bool
    ensures { result ≡ reads_at_data row }
{
    match row {
        Row::DataToPair | Row::ReadData => true,
        _ => false,
    }
}

/// The bus goes by D0.
pub fn goes_by_data(row: Row) -> bool
    ensures { result ≡ goes_by_data row }
{
    match row {
        Row::StoreData => true,
        _ => reads_at_data(row),
    }
}

/// A 3853's DC0 may be away from D0, or a 3851 whose DC0 may be away from it may answer.
pub fn may_part(row: Row, map: &Map, counters: Counters) -> bool
    ensures { result ≡ may_part row (view_of map.now) (counters_view counters) }
{
    (goes_by_data(row) && map.any(ChipKind::Smi) && !counters.s0)
        || (reads_at_data(row)
            && map.any(ChipKind::Psu)
            && !counters.p0
            && may_be_held_by_psu(map, counters.c))
}

/// A 3851 may answer at its own DC0.
fn may_be_held_by_psu(map: &Map, at: Option<u16>) -> bool
    ensures { result ≡ may_be_held_by_psu (view_of map.now) at }
{
    match at {
        Some(at) => map.held(at, ChipKind::Psu),
        None => true,
    }
}

/// Two chips may hold D0.
pub fn may_be_shared(map: &Map, at: Option<u16>) -> bool
    ensures { result ≡ may_be_shared (view_of map.now) at }
{
    match at {
        Some(at) => map.sort(at) == Sort::Shared,
        None => map.overlaps(),
    }
}

/// A chip has to give the bytes of the return, and not exactly one holds it.
pub fn return_is_unheld(row: Row, map: &Map, ret: Option<u16>) -> bool
    ensures { result ≡ return_is_unheld row (view_of map.now) ret }
{
    match row {
        Row::StackToK => match ret {
            Some(ret) => !is_held_once(map.sort(ret)),
            None => true,
        },
        _ => false,
    }
}

/// One chip alone holds an address.
fn is_held_once(sort: Sort) -> bool
    ensures { result ≡ is_held_once sort }
{
    match sort {
        Sort::Rom | Sort::Ram | Sort::Void => true,
        Sort::Nothing | Sort::Shared => false,
    }
}

/// A read of a port that isn't the data port of exactly one chip, or a write to a port that several chips have.
pub fn port_is_bad(op: Op, map: &Map, operand: Option<u8>) -> bool
    ensures { result ≡ port_is_bad (row_of op) (view_of map.now) operand (port_field op) }
{
    match row_of(op) {
        Row::PortIn => match operand {
            Some(port) => map.reads(port) != 1,
            None => false,
        },
        Row::PortOut => match operand {
            Some(port) => map.writes(port) >= 2,
            None => false,
        },
        Row::ShortIn => map.reads(port_field(op)) != 1,
        Row::ShortOut => map.writes(port_field(op)) >= 2,
        _ => false,
    }
}

/// The port that a short read or write names.
fn port_field(op: Op) -> u8
    ensures { result ≡ port_field op }
{
    match op {
        Op::Ins { n } | Op::Outs { n } => n,
        _ => 0,
    }
}

/// No interrupt is taken at the end of an instruction, by what is known of the interrupt control bit after it.
pub fn keeps_interrupts_out(op: Op, icb: Option<bool>) -> bool
    ensures { result ≡ keeps_interrupts_out op icb }
{
    shields(op) || icb == Some(false)
}

/// An interrupt may be taken at the end whose vector ports write.
pub fn vector_is_lost(op: Op, map: &Map, icb: Option<bool>) -> bool
    ensures { result ≡ vector_is_lost op (view_of map.now) icb }
{
    !keeps_interrupts_out(op, icb) && map.wired_smi()
}

/// Some tracked register is written so that it isn't known any more what it holds.
pub fn any_blurred(writes: Writes, split: &Split) -> bool
    ensures { result ≡ any_blurred (writes_view writes) split.now }
{
    split
        .as_slice()
        .iter()
        .any(|number| writes.any_blurs(*number))
}
