// What each command wants of its files.
ghost use Rattle.std.specs.Prelude.{◌≤◌, IfOk, IsOk, length};
ghost use Rattle.toml.specs.View.{table_view};
ghost use Rattle.cartridge.specs.Filling.{plan_of};
ghost use Rattle.loader.specs.Games.{cart_of, table_by, script_by, game_of, notes_by, claim_of, list_by, confirming_of};
ghost use Rattle.loader.specs.Games.{commands_by, debugging_of, trace_by, auditing_of, image_by, bytes_by};
ghost use Rattle.certificate.specs.CertificateLaws.{AllFit};
ghost use Rattle.pad_script.specs.Limits.{HasLimits};
ghost use Rattle.pad_script.specs.Reading.{seen};
ghost use Rattle.loader.specs.Seen.{seen_game, seen_claim, seen_confirming, seen_auditing};
ghost use Rattle.loader.specs.Works.{Works, RefusesFrom, order_of, outcome_as};

use super::claims::{Claim, Confirming};
use super::fetching::fetch;
use super::games::{Auditing, Debugging, Game};
use super::purposes::Purpose;
use super::readings::{
    read_bytes, read_described, read_description, read_image, read_list, read_notes, read_run,
    read_session, read_steps,
};
use super::refusals::Stop;
use super::sources::{ASSEMBLY_LIMIT, load_planned};
use abs_step::Annotation;
use bus_audit::TraceList;
use cart_data::{Cart, Split};
use case_step::CaseList;
use chip_debug::CommandList;
use f8_asm::{Image, Room};
use outside::Store;
use pad_script::Script;
use std::alloc::Global;
use toml::Table;

/// The most bytes of a description, of a script and of commands.
const TEXT_LIMIT: u32 = 65_536;

/// The most bytes of a certificate.
const CERT_LIMIT: u32 = 16_777_216;

/// The most bytes of a list of entries.
const CASES_LIMIT: u32 = 67_108_864;

/// The most bytes of a trace.
const TRACE_LIMIT: u32 = 16_777_216;

/// The most bytes of a file of digits.
const DIGITS_LIMIT: u32 = 262_144;

/// All addresses.
const EVERYWHERE: Room = Room {
    first: 0x0000,
    last: 0xFFFF,
};

/// The cartridge of a description, with the images of its sources: the description, and then the source of each chip that has one, each of
/// them fetched and read before the next. A description has at most 65,536 bytes, and a source 262,144.
///
/// # Errors
///
/// As those of `load_game`.
#[tactic(auto, using(crate::proofs::GamesLoaded::cart_stop, crate::proofs::GamesLoaded::cart_unread, crate::proofs::GamesLoaded::cart_loaded))]
pub fn load_cart<S: Store>(alloc: Global, store: &mut S, name: &str) -> Result<Cart, Stop>
    ensures { Works (S.input store.old) (S.input store.new) (cart_of name.now) result }
{
    let bytes = fetch(alloc, store, Purpose::Cart, name, TEXT_LIMIT)?;
    let plan = read_description(alloc, bytes.as_slice())?;
    load_planned(alloc, store, plan)
}

/// The table of a description, which isn't refused. Its sources aren't asked for. It has at most 65,536 bytes.
///
/// # Errors
///
/// As those of `load_game`.
#[tactic(auto, using(crate::proofs::ScriptsLoaded::table_read, crate::proofs::ScriptsLoaded::table_stop))]
pub fn load_table<S: Store>(alloc: Global, store: &mut S, name: &str) -> Result<Table, Stop>
    ensures works { Works (S.input store.old) (S.input store.new)
        (table_by name.now) (outcome_as (λ table. table_view table) result) }
    ensures described { IfOk result (λ table. IsOk (plan_of (table_view table))) }
{
    let bytes = fetch(alloc, store, Purpose::Cart, name, TEXT_LIMIT)?;
    read_described(alloc, bytes.as_slice())
}

/// A script.
#[tactic(auto, using(crate::proofs::ScriptsLoaded::script_read, crate::proofs::ScriptsLoaded::script_stop, crate::proofs::ScriptsLoaded::script_order))]
fn load_script<S: Store>(alloc: Global, store: &mut S, script: &str) -> Result<Script, Stop>
    ensures works { Works (S.input store.old) (S.input store.new)
        (script_by script.now) (outcome_as seen result) }
    ensures order { RefusesFrom (order_of Purpose.Script) result }
    ensures limits { IfOk result (λ script. HasLimits script.end) }
{
    let text = fetch(alloc, store, Purpose::Script, script, TEXT_LIMIT)?;
    read_run(alloc, text.as_slice())
}

/// A run by the names of its description and its script: the description, then the source of each chip that has one, and then the script,
/// each of them fetched and read before the next. A description and a script have at most 65,536 bytes each, and a source 262,144. The run
/// ends at frame 600 at the latest, or after 1,000,000 instructions at most, whatever the store tells of its files.
///
/// # Errors
///
/// `Refused`: the first file that is too long or at fault. `Store`: the store failed at a file. `Memory`: memory is missing; it says nothing
/// of the files.
#[tactic(auto, using(crate::proofs::GamesLoaded::game_loaded, crate::proofs::GamesLoaded::game_without_cart, crate::proofs::GamesLoaded::game_without_script))]
pub fn load_game<S: Store>(
    alloc: Global,
    store: &mut S,
    cart: &str,
    script: &str,
) -> Result<Game, Stop>
    ensures works { Works (S.input store.old) (S.input store.new)
        (game_of cart.now script.now) (outcome_as seen_game result) }
    ensures limits { IfOk result (λ game. HasLimits game.script.end) }
{
    let cart = load_cart(alloc, store, cart)?;
    let script = load_script(alloc, store, script)?;
    Ok(Game { cart, script })
}

/// The invariant map of a certificate of a cartridge that tracks some registers.
#[tactic(auto, using(crate::proofs::ClaimsLoaded::notes_read, crate::proofs::ClaimsLoaded::notes_stop, crate::proofs::ClaimsLoaded::notes_order))]
fn load_notes<S: Store>(
    alloc: Global,
    store: &mut S,
    split: &Split,
    cert: &str,
) -> Result<Annotation, Stop>
    ensures works { Works (S.input store.old) (S.input store.new)
        (notes_by split.now cert.now) (outcome_as (λ notes. notes) result) }
    ensures order { RefusesFrom (order_of Purpose.Cert) result }
    ensures fits { IfOk result (λ notes. AllFit split.now notes) }
{
    let text = fetch(alloc, store, Purpose::Cert, cert, CERT_LIMIT)?;
    read_notes(alloc, split, text.as_slice())
}

/// A cartridge with what a certificate claims of it, by the names of the description and the certificate: the description, then the source of
/// each chip that has one, and then the certificate, each of them fetched and read before the next. A certificate has at most 16,777,216 bytes.
/// Its states fit their points.
///
/// # Errors
///
/// As those of `load_game`.
#[tactic(auto, using(crate::proofs::ClaimsLoaded::claim_loaded, crate::proofs::ClaimsLoaded::claim_without_cart, crate::proofs::ClaimsLoaded::claim_without_notes))]
pub fn load_claim<S: Store>(
    alloc: Global,
    store: &mut S,
    cart: &str,
    cert: &str,
) -> Result<Claim, Stop>
    ensures works { Works (S.input store.old) (S.input store.new)
        (claim_of cart.now cert.now) (outcome_as seen_claim result) }
    ensures fits { IfOk result (λ claim. AllFit claim.cart.split claim.notes) }
{
    let cartridge = load_cart(alloc, store, cart)?;
    let notes = load_notes(alloc, store, &cartridge.split, cert)?;
    Ok(Claim {
        cart: cartridge,
        notes,
    })
}

/// The list of entries of a cartridge.
#[tactic(auto, using(crate::proofs::ConfirmingsLoaded::list_read, crate::proofs::ConfirmingsLoaded::list_stop, crate::proofs::ConfirmingsLoaded::list_order))]
fn load_list<S: Store>(alloc: Global, store: &mut S, name: &str) -> Result<CaseList, Stop>
    ensures works { Works (S.input store.old) (S.input store.new)
        (list_by name.now) (outcome_as (λ list. list) result) }
    ensures order { RefusesFrom (order_of Purpose.Cases) result }
    ensures few { IfOk result (λ list. length list ≤ 65536) }
{
    let text = fetch(alloc, store, Purpose::Cases, name, CASES_LIMIT)?;
    read_list(alloc, text.as_slice())
}

/// A cartridge with a list of entries of it, by the names of the description and the list: the description, then the source of each chip that
/// has one, and then the list, each of them fetched and read before the next. The list has at most 67,108,864 bytes, and 65,536 entries.
///
/// # Errors
///
/// As those of `load_game`.
#[tactic(auto, using(crate::proofs::ConfirmingsLoaded::confirming_loaded, crate::proofs::ConfirmingsLoaded::confirming_without_cart, crate::proofs::ConfirmingsLoaded::confirming_without_list))]
pub fn load_confirming<S: Store>(
    alloc: Global,
    store: &mut S,
    cart: &str,
    cases: &str,
) -> Result<Confirming, Stop>
    ensures works { Works (S.input store.old) (S.input store.new)
        (confirming_of cart.now cases.now) (outcome_as seen_confirming result) }
    ensures few { IfOk result (λ asked. length asked.list ≤ 65536) }
{
    let cartridge = load_cart(alloc, store, cart)?;
    let list = load_list(alloc, store, cases)?;
    Ok(Confirming {
        cart: cartridge,
        list,
    })
}

/// The commands of the debugger.
#[tactic(auto, using(crate::proofs::DebuggingsLoaded::commands_read, crate::proofs::DebuggingsLoaded::commands_stop, crate::proofs::DebuggingsLoaded::commands_order))]
fn load_commands<S: Store>(alloc: Global, store: &mut S, name: &str) -> Result<CommandList, Stop>
    ensures works { Works (S.input store.old) (S.input store.new)
        (commands_by name.now) (outcome_as (λ commands. commands) result) }
    ensures order { RefusesFrom (order_of Purpose.Commands) result }
{
    let text = fetch(alloc, store, Purpose::Commands, name, TEXT_LIMIT)?;
    read_session(alloc, text.as_slice())
}

/// A session of the debugger by the names of its description and its commands: the description, then the source of each chip that has one,
/// and then the commands, each of them fetched and read before the next. The commands have at most 65,536 bytes.
///
/// # Errors
///
/// As those of `load_game`.
#[tactic(auto, using(crate::proofs::DebuggingsLoaded::debugging_loaded, crate::proofs::DebuggingsLoaded::debugging_without_cart, crate::proofs::DebuggingsLoaded::debugging_without_commands))]
pub fn load_debugging<S: Store>(
    alloc: Global,
    store: &mut S,
    cart: &str,
    commands: &str,
) -> Result<Debugging, Stop>
    ensures { Works (S.input store.old) (S.input store.new)
        (debugging_of cart.now commands.now) result }
{
    let cartridge = load_cart(alloc, store, cart)?;
    let commands = load_commands(alloc, store, commands)?;
    Ok(Debugging {
        cart: cartridge,
        commands,
    })
}

/// The trace of an audit.
#[tactic(auto, using(crate::proofs::AuditingsLoaded::trace_read, crate::proofs::AuditingsLoaded::trace_stop, crate::proofs::AuditingsLoaded::trace_order))]
fn load_trace<S: Store>(alloc: Global, store: &mut S, name: &str) -> Result<TraceList, Stop>
    ensures works { Works (S.input store.old) (S.input store.new)
        (trace_by name.now) (outcome_as (λ trace. trace) result) }
    ensures order { RefusesFrom (order_of Purpose.Trace) result }
    ensures few { IfOk result (λ trace. length trace.told ≤ 2000000) }
{
    let text = fetch(alloc, store, Purpose::Trace, name, TRACE_LIMIT)?;
    read_steps(alloc, text.as_slice())
}

/// An audit by the names of its description, its script and its trace: all that `load_game` fetches, and then the trace, each of them fetched and
/// read before the next. The trace has at most 16,777,216 bytes, and 2,000,000 steps.
///
/// # Errors
///
/// As those of `load_game`.
#[tactic(auto, using(crate::proofs::AuditingsLoaded::audit_loaded, crate::proofs::AuditingsLoaded::audit_without_game, crate::proofs::AuditingsLoaded::audit_without_trace))]
pub fn load_audit<S: Store>(
    alloc: Global,
    store: &mut S,
    cart: &str,
    script: &str,
    trace: &str,
) -> Result<Auditing, Stop>
    ensures works { Works (S.input store.old) (S.input store.new)
        (auditing_of cart.now script.now trace.now) (outcome_as seen_auditing result) }
    ensures few { IfOk result (λ asked. length asked.trace.told ≤ 2000000) }
{
    let game = load_game(alloc, store, cart, script)?;
    let trace = load_trace(alloc, store, trace)?;
    Ok(Auditing { game, trace })
}

/// The image of an assembly file, which may have all addresses. The file has at most 262,144 bytes.
///
/// # Errors
///
/// As those of `load_game`.
#[tactic(auto, using(crate::proofs::ScriptsLoaded::picture_read, crate::proofs::ScriptsLoaded::picture_stop))]
pub fn load_image<S: Store>(alloc: Global, store: &mut S, file: &str) -> Result<Image, Stop>
    ensures { Works (S.input store.old) (S.input store.new) (image_by file.now) result }
{
    let text = fetch(alloc, store, Purpose::File, file, ASSEMBLY_LIMIT)?;
    read_image(alloc, None, text.as_slice(), EVERYWHERE)
}

/// The bytes of a file of hexadecimal digits. The file has at most 262,144 bytes and spells at most 65,536.
///
/// # Errors
///
/// As those of `load_game`.
#[tactic(auto, using(crate::proofs::ScriptsLoaded::bytes_read, crate::proofs::ScriptsLoaded::bytes_stop))]
pub fn load_bytes<S: Store>(alloc: Global, store: &mut S, file: &str) -> Result<Vec<u8>, Stop>
    ensures works { Works (S.input store.old) (S.input store.new)
        (bytes_by file.now) (outcome_as (λ bytes. bytes.items) result) }
    ensures limit { IfOk result (λ bytes. length bytes.items ≤ 65536) }
{
    let text = fetch(alloc, store, Purpose::File, file, DIGITS_LIMIT)?;
    read_bytes(alloc, text.as_slice())
}
