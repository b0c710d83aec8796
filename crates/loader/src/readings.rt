// What is read of the bytes of a file.
ghost use Rattle.std.specs.Prelude.{◌≡◌, ◌≤◌, IfOk, IsOk, length, string_bytes};
ghost use Rattle.toml.specs.View.{table_view};
ghost use Rattle.cartridge.specs.Filling.{IsWholePlan, plan_of};
ghost use Rattle.cartridge.specs.Migrated.{migrated_table};
ghost use Rattle.cartridge.specs.Rooms.{LiesIn};
ghost use Rattle.certificate.specs.CertificateLaws.{AllFit};
ghost use Rattle.pad_script.specs.Limits.{HasLimits};
ghost use Rattle.pad_script.specs.Reading.{seen};
ghost use Rattle.loader.specs.Readings.{Says, bytes_in, commands_in, trace_in, linked_in, modules_in, object_in};
ghost use Rattle.loader.specs.Readings.{plan_told, table_of, description_of, described_table, image_in, notes_in};
ghost use Rattle.loader.specs.Readings.{list_in, script_in};

use super::purposes::Purpose;
use super::refusals::{Refusal, Stop};
use abs_step::Annotation;
use bus_audit::{TraceAnswer, TraceList, read_trace};
use cart_data::Split;
use cartridge::{CartAnswer, Plan, migrate, read_cart};
use case_step::CaseList;
use case_text::{CasesError, read_cases};
use certificate::{CertAnswer, read_cert};
use chip_debug::{CommandList, DebugAnswer, read_commands};
use f8_asm::{AsmAnswer, Image, Room, assemble};
use f8_link::{
    LinkAnswer, Linked, ModAnswer, ModuleList, Object, PartList, PlanAnswer, compile, link,
};
use f8_spec::Memory;
use hex_file::{HexAnswer, read_hex};
use pad_script::{Script, ScriptAnswer, read_script};
use std::alloc::Global;
use toml::Table;

/// The table of a TOML document.
#[tactic(auto, using(crate::proofs::TableRead::table_there, crate::proofs::TableRead::no_table))]
fn read_table(alloc: Global, bytes: &[u8]) -> Result<Table, Stop>
    ensures { Says (λ table. table_view table) result (table_of bytes.now) }
{
    match toml::table_from_slice(alloc, bytes) {
        Ok(table) => Ok(table),
        Err(error) if error.is_memory() => Err(Stop::Memory),
        Err(_) => Err(Stop::Refused(Refusal::Document)),
    }
}

/// The plan of a table.
fn read_plan(alloc: Global, table: &Table) -> Result<Plan, Stop>
    ensures says { Says (λ plan. plan) result (plan_told (plan_of (table_view table.now))) }
    ensures whole { IfOk result (λ plan. IsWholePlan plan) }
{
    match read_cart(alloc, table) {
        Ok(plan) => Ok(plan),
        Err(CartAnswer::Fault(fault)) => Err(Stop::Refused(Refusal::Cart(fault))),
        Err(CartAnswer::Memory) => Err(Stop::Memory),
    }
}

/// The plan of a description.
#[tactic(auto, unfolding(crate::specs::Readings::description_of))]
pub fn read_description(alloc: Global, bytes: &[u8]) -> Result<Plan, Stop>
    ensures says { Says (λ plan. plan) result (description_of bytes.now) }
    ensures whole { IfOk result (λ plan. IsWholePlan plan) }
{
    let table = read_table(alloc, bytes)?;
    read_plan(alloc, &table)
}

/// The table of a description. It isn't refused.
#[tactic(auto, unfolding(crate::specs::Readings::described_table))]
pub fn read_described(alloc: Global, bytes: &[u8]) -> Result<Table, Stop>
    ensures says { Says (λ table. table_view table) result (described_table bytes.now) }
    ensures described { IfOk result (λ table. IsOk (plan_of (table_view table))) }
{
    let table = read_table(alloc, bytes)?;
    read_plan(alloc, &table)?;
    Ok(table)
}

/// The document that describes the same in the newest format.
pub fn migrated_text(alloc: Global, table: Table) -> Result<String, Memory>
    requires { IsOk (plan_of (table_view table)) }
    ensures { IfOk result (λ text.
        table_of (string_bytes text) ≡ Ok (migrated_table (table_view table))) }
{
    migrate(alloc, table)
}

/// The image of an assembly text, that of a chip's source or the one file of a command, with its bytes in the room.
#[tactic(auto, unfolding(crate::specs::Readings::image_in))]
pub fn read_image(alloc: Global, source: Option<u8>, text: &[u8], room: Room) -> Result<Image, Stop>
    requires { length text.now ≤ 262144 }
    ensures says { Says (λ image. image) result (image_in source room text.now) }
    ensures inside { IfOk result (λ image. LiesIn room image.bytes) }
{
    match assemble(alloc, text, room) {
        Ok(image) => Ok(image),
        Err(AsmAnswer::Fault(fault)) => Err(Stop::Refused(Refusal::Assembly { source, fault })),
        Err(AsmAnswer::Memory) => Err(Stop::Memory),
    }
}

/// The modules of a plan.
#[tactic(auto, unfolding(crate::specs::Readings::modules_in))]
pub fn read_modules(alloc: Global, text: &[u8]) -> Result<ModuleList, Stop>
    requires { length text.now ≤ 65536 }
    ensures { Says (λ modules. modules) result (modules_in text.now) }
{
    match f8_link::read_plan(alloc, text) {
        Ok(modules) => Ok(modules),
        Err(PlanAnswer::Fault(fault)) => Err(Stop::Refused(Refusal::Plan(fault))),
        Err(PlanAnswer::Memory) => Err(Stop::Memory),
    }
}

/// The object of a module's text.
#[tactic(auto, unfolding(crate::specs::Readings::object_in))]
pub fn read_module(alloc: Global, number: u8, text: &[u8]) -> Result<Object, Stop>
    requires { length text.now ≤ 262144 }
    ensures { Says (λ object. object) result (object_in number text.now) }
{
    match compile(alloc, text) {
        Ok(object) => Ok(object),
        Err(ModAnswer::Fault(fault)) => Err(Stop::Refused(Refusal::Module { number, fault })),
        Err(ModAnswer::Memory) => Err(Stop::Memory),
    }
}

/// The picture of some modules, at most 64.
#[tactic(auto, unfolding(crate::specs::Readings::linked_in))]
pub fn link_modules(alloc: Global, parts: &PartList) -> Result<Linked, Stop>
    requires { length parts.now ≤ 64 }
    ensures { Says (λ linked. linked) result (linked_in parts.now) }
{
    match link(alloc, parts) {
        Ok(linked) => Ok(linked),
        Err(LinkAnswer::Fault(fault)) => Err(Stop::Refused(Refusal::Link(fault))),
        Err(LinkAnswer::Memory) => Err(Stop::Memory),
    }
}

/// The script of a text.
#[tactic(auto, unfolding(crate::specs::Readings::script_in))]
pub fn read_run(alloc: Global, text: &[u8]) -> Result<Script, Stop>
    requires { length text.now ≤ 65536 }
    ensures says { Says seen result (script_in text.now) }
    ensures limits { IfOk result (λ script. HasLimits script.end) }
{
    match read_script(alloc, text) {
        Ok(script) => Ok(script),
        Err(ScriptAnswer::Fault(fault)) => Err(Stop::Refused(Refusal::Script(fault))),
        Err(ScriptAnswer::Memory) => Err(Stop::Memory),
    }
}

/// The invariant map of a certificate's text.
#[tactic(auto, unfolding(crate::specs::Readings::notes_in))]
pub fn read_notes(alloc: Global, split: &Split, text: &[u8]) -> Result<Annotation, Stop>
    ensures says { Says (λ notes. notes) result (notes_in split.now text.now) }
    ensures fits { IfOk result (λ notes. AllFit split.now notes) }
{
    match read_cert(alloc, text, split) {
        Ok(notes) => Ok(notes),
        Err(CertAnswer::Fault(fault)) => Err(Stop::Refused(Refusal::Cert(fault))),
        Err(CertAnswer::Memory) => Err(Stop::Memory),
    }
}

/// The list of entries of a text.
#[tactic(auto, unfolding(crate::specs::Readings::list_in))]
pub fn read_list(alloc: Global, text: &[u8]) -> Result<CaseList, Stop>
    ensures says { Says (λ list. list) result (list_in text.now) }
    ensures few { IfOk result (λ list. length list ≤ 65536) }
{
    match read_cases(alloc, text) {
        Ok(list) => Ok(list),
        Err(CasesError::Fault(fault)) => Err(Stop::Refused(Refusal::Cases(fault))),
        Err(CasesError::Memory) => Err(Stop::Memory),
    }
}

/// The commands of a text.
#[tactic(auto, unfolding(crate::specs::Readings::commands_in))]
pub fn read_session(alloc: Global, text: &[u8]) -> Result<CommandList, Stop>
    requires { length text.now ≤ 65536 }
    ensures { Says (λ commands. commands) result (commands_in text.now) }
{
    match read_commands(alloc, text) {
        Ok(commands) => Ok(commands),
        Err(DebugAnswer::Fault(fault)) => Err(Stop::Refused(Refusal::Commands(fault))),
        Err(DebugAnswer::Memory) => Err(Stop::Memory),
    }
}

/// The steps of a trace's text.
#[tactic(auto, unfolding(crate::specs::Readings::trace_in))]
pub fn read_steps(alloc: Global, text: &[u8]) -> Result<TraceList, Stop>
    requires { length text.now ≤ 16777216 }
    ensures says { Says (λ trace. trace) result (trace_in text.now) }
    ensures few { IfOk result (λ trace. length trace.told ≤ 2000000) }
{
    match read_trace(alloc, text) {
        Ok(trace) => Ok(trace),
        Err(TraceAnswer::Fault(fault)) => Err(Stop::Refused(Refusal::Trace(fault))),
        Err(TraceAnswer::Memory) => Err(Stop::Memory),
    }
}

/// The bytes of a file of digits.
#[tactic(auto, unfolding(crate::specs::Readings::bytes_in))]
pub fn read_bytes(alloc: Global, text: &[u8]) -> Result<Vec<u8>, Stop>
    ensures says { Says (λ bytes. bytes.items) result (bytes_in text.now) }
    ensures limit { IfOk result (λ bytes. length bytes.items ≤ 65536) }
{
    match read_hex(alloc, text) {
        Ok(bytes) => Ok(bytes),
        Err(HexAnswer::Digits) => Err(Stop::Refused(Refusal::Digits)),
        Err(HexAnswer::Long) => Err(Stop::Refused(Refusal::Long(Purpose::File))),
        Err(HexAnswer::Memory) => Err(Stop::Memory),
    }
}
