// What each command answers.
ghost use Rattle.std.specs.Prelude.{◌≡◌, ◌≤◌, ◌⊎◌, IfOk, IsOk, map, length, sum_by};
ghost use Rattle.toml.specs.View.{table_view};
ghost use Rattle.cartridge.specs.Filling.{plan_of};
ghost use Rattle.certificate.specs.CertificateLaws.{AllFit};
ghost use Rattle.loader.specs.Games.{game_of, cart_of, table_by, claim_of, confirming_of, debugging_of, auditing_of};
ghost use Rattle.loader.specs.Games.{image_by, linked_by, bytes_by};
ghost use Rattle.channel_f.specs.Answers.{Plain, generated_game, gen_due, check_due, prove_due, ref_answer};
ghost use Rattle.channel_f.specs.Answers.{asm_answer, cert_answer, confirm_answer, dis_answer, listed_answer};
ghost use Rattle.channel_f.specs.Answers.{migrate_due, verify_answer};
ghost use Rattle.channel_f.specs.CaseLines.{IsFew};
ghost use Rattle.channel_f.specs.Commands.{around, Told, TellsAudit, TellsDebugging, TellsGame};
ghost use Rattle.loader.specs.Seen.{seen_game, seen_claim, seen_confirming};
ghost use Rattle.pad_script.specs.Limits.{HasLimits};
ghost use Rattle.channel_f.specs.RackAfter.{PlaysGame};
ghost use Rattle.channel_f.specs.Reports.{Answers, AnswersDue, Reports, Wants};
ghost use Rattle.channel_f.specs.SafeGames.{KeepsVerdict};

use super::auditing::audit_trace;
use super::case_lines::{put_confirmed, put_proved};
use super::debugging::debug;
use super::error_lines::put_stop;
use super::lines_out::{put_document, put_found, put_modules, put_picture, put_text, put_verdict};
use super::manner::Manner;
use super::playing::{play_game, refer_game};
use super::status::Status;
use cart_checker::{Verdict, check_cart};
use cart_data::{Cart, Split};
use case_search::{ProveAnswer, prove};
use case_text::confirm;
use certificate::{verify, write_cert};
use chip_face::{Chip, Powers};
use console_spec::End;
use f8_asm::{Text, disassemble};
use f8_machine::Rack;
use f8_spec::Memory;
use generator::generated_chips;
use loader::{
    Claim, Confirming, Game, load_audit, load_bytes, load_cart, load_claim, load_confirming,
    load_debugging, load_game, load_image, load_linked, load_table, migrated_text,
};
use outside::{Sink, Store};
use pad_script::{EventList, Script, ShowList};
use std::alloc::Global;
use toml::Table;

/// `play CART SCRIPT`, with every bus step where it is traced.
#[tactic(auto, using(crate::proofs::Outcomes::tells_game, crate::proofs::Outcomes::tells_no_game))]
pub fn answer_play<S: Store, K: Sink>(
    alloc: Global,
    cart: &str,
    script: &str,
    traced: bool,
    store: &mut S,
    sink: &mut K,
    rack: &mut Rack,
) -> Status
    ensures { TellsGame
        (around (K.output sink.old) (S.input store.old) (map state rack.old.items)
        (sum_by queries rack.old.items))
        (around (K.output sink.new) (S.input store.new) (map state rack.new.items)
        (sum_by queries rack.new.items))
        result traced (game_of cart.now script.now) }
{
    match load_game(alloc, store, cart, script) {
        Ok(game) => play_game(alloc, &game, Manner::Whole { traced }, sink, rack),
        Err(stop) => put_stop(sink, stop),
    }
}

/// The certificate of a verdict, or the verdict's line where it has none.
fn certify<K: Sink>(alloc: Global, split: &Split, verdict: &Verdict, sink: &mut K) -> Status
    ensures { let due = cert_answer split.now verdict.now in
        Wants (K.output sink.old) (K.output sink.new) result
        ⊎ Reports (K.output sink.old) (K.output sink.new) result due.status due.lines }
{
    match verdict {
        Verdict::Whole(notes) | Verdict::Agreed(notes) => match write_cert(alloc, notes, split) {
            Ok(text) => put_text(sink, &text),
            Err(Memory) => Status::Memory,
        },
        Verdict::Refused { .. } | Verdict::TooMany => put_verdict(sink, split, verdict),
    }
}

/// The line of the verdict on a cartridge, or its certificate.
fn check<K: Sink>(alloc: Global, cart: &Cart, certified: bool, sink: &mut K) -> Status
    ensures { AnswersDue (K.output sink.old) (K.output sink.new) result
        (check_due certified cart.now) }
{
    match check_cart(alloc, cart) {
        Ok(verdict) => {
            if certified {
                certify(alloc, &cart.split, &verdict, sink)
            } else {
                put_verdict(sink, &cart.split, &verdict)
            }
        }
        Err(Memory) => Status::Memory,
    }
}

/// `check CART`, with the certificate where it is asked for.
#[tactic(auto, using(crate::proofs::Outcomes::told_ok, crate::proofs::Outcomes::told_stop))]
pub fn answer_check<S: Store, K: Sink>(
    alloc: Global,
    cart: &str,
    certified: bool,
    store: &mut S,
    sink: &mut K,
) -> Status
    ensures { Told (K.output sink.old) (K.output sink.new) (S.input store.old) (S.input store.new)
        result (cart_of cart.now) (check_due certified) }
{
    match load_cart(alloc, store, cart) {
        Ok(cart) => check(alloc, &cart, certified, sink),
        Err(stop) => put_stop(sink, stop),
    }
}

/// The line of what is found of a certificate.
#[tactic(auto, using(crate::proofs::Games::answers_wanting, certificate::proofs::ClosedMaps::split_of))]
fn verify_claim<K: Sink>(alloc: Global, claim: &Claim, sink: &mut K) -> Status
    requires { AllFit claim.now.cart.split claim.now.notes }
    ensures { Answers (K.output sink.old) (K.output sink.new) result
        (verify_answer (seen_claim claim.now)) }
{
    match verify(alloc, &claim.cart, &claim.notes) {
        Ok(found) => put_found(sink, &claim.cart.split, claim.notes.len(), &found),
        Err(Memory) => Status::Memory,
    }
}

/// `verify CART CERT`.
#[tactic(auto, using(crate::proofs::Outcomes::told_ok, crate::proofs::Outcomes::told_stop))]
pub fn answer_verify<S: Store, K: Sink>(
    alloc: Global,
    cart: &str,
    cert: &str,
    store: &mut S,
    sink: &mut K,
) -> Status
    ensures { Told (K.output sink.old) (K.output sink.new) (S.input store.old) (S.input store.new)
        result (claim_of cart.now cert.now) (λ claim. Plain (verify_answer claim)) }
{
    match load_claim(alloc, store, cart, cert) {
        Ok(claim) => verify_claim(alloc, &claim, sink),
        Err(stop) => put_stop(sink, stop),
    }
}

/// The text of the list that a search found, or the line of where it gave up.
fn put_list<K: Sink>(sink: &mut K, found: ProveAnswer) -> Status
    requires { IsFew found }
    ensures { let due = listed_answer found in
        Reports (K.output sink.old) (K.output sink.new) result due.status due.lines }
{
    match found {
        ProveAnswer::Whole(shown) | ProveAnswer::Agreed(shown) => {
            put_text(sink, &Text::from_vec(shown.text))
        }
        ProveAnswer::Unproved { .. } => put_proved(sink, &found),
    }
}

/// The line of what a search found for a cartridge, or its list.
fn search<K: Sink>(alloc: Global, cart: &Cart, listed: bool, sink: &mut K) -> Status
    ensures { AnswersDue (K.output sink.old) (K.output sink.new) result
        (prove_due listed cart.now) }
{
    match prove(alloc, cart) {
        Ok(found) => {
            if listed {
                put_list(sink, found)
            } else {
                put_proved(sink, &found)
            }
        }
        Err(Memory) => Status::Memory,
    }
}

/// `prove CART`, with the list where it is asked for.
#[tactic(auto, using(crate::proofs::Outcomes::told_ok, crate::proofs::Outcomes::told_stop))]
pub fn answer_prove<S: Store, K: Sink>(
    alloc: Global,
    cart: &str,
    listed: bool,
    store: &mut S,
    sink: &mut K,
) -> Status
    ensures { Told (K.output sink.old) (K.output sink.new) (S.input store.old) (S.input store.new)
        result (cart_of cart.now) (prove_due listed) }
{
    match load_cart(alloc, store, cart) {
        Ok(cart) => search(alloc, &cart, listed, sink),
        Err(stop) => put_stop(sink, stop),
    }
}

/// The line of what is found of a list of entries.
#[tactic(auto, using(crate::proofs::Games::answers_wanting, crate::proofs::ConfirmedLists::judged_places))]
fn confirm_list<K: Sink>(alloc: Global, asked: &Confirming, sink: &mut K) -> Status
    requires { length asked.now.list ≤ 65536 }
    ensures { Answers (K.output sink.old) (K.output sink.new) result
        (confirm_answer (seen_confirming asked.now)) }
{
    match confirm(alloc, &asked.cart, &asked.list) {
        Ok(found) => put_confirmed(sink, asked.list.len(), &found),
        Err(Memory) => Status::Memory,
    }
}

/// `confirm CART CASES`.
#[tactic(auto, using(crate::proofs::Outcomes::told_ok, crate::proofs::Outcomes::told_stop))]
pub fn answer_confirm<S: Store, K: Sink>(
    alloc: Global,
    cart: &str,
    cases: &str,
    store: &mut S,
    sink: &mut K,
) -> Status
    ensures { Told (K.output sink.old) (K.output sink.new) (S.input store.old) (S.input store.new)
        result (confirming_of cart.now cases.now) (λ asked. Plain (confirm_answer asked)) }
{
    match load_confirming(alloc, store, cart, cases) {
        Ok(asked) => confirm_list(alloc, &asked, sink),
        Err(stop) => put_stop(sink, stop),
    }
}

/// The document that says what a table describes in the newest format.
fn put_migrated<K: Sink>(alloc: Global, table: Table, sink: &mut K) -> Status
    requires { IsOk (plan_of (table_view table)) }
    ensures { AnswersDue (K.output sink.old) (K.output sink.new) result
        (migrate_due (table_view table)) }
{
    match migrated_text(alloc, table) {
        Ok(document) => put_document(sink, document.as_str()),
        Err(Memory) => Status::Memory,
    }
}

/// `migrate CART`.
#[tactic(auto, using(crate::proofs::Outcomes::told_ok, crate::proofs::Outcomes::told_stop))]
pub fn answer_migrate<S: Store, K: Sink>(
    alloc: Global,
    cart: &str,
    store: &mut S,
    sink: &mut K,
) -> Status
    ensures { Told (K.output sink.old) (K.output sink.new) (S.input store.old) (S.input store.new)
        result (table_by cart.now) migrate_due }
{
    match load_table(alloc, store, cart) {
        Ok(table) => put_migrated(alloc, table, sink),
        Err(stop) => put_stop(sink, stop),
    }
}

/// `ref CART SCRIPT`.
#[tactic(auto, using(crate::proofs::Outcomes::told_ok, crate::proofs::Outcomes::told_stop))]
pub fn answer_ref<S: Store, K: Sink>(
    alloc: Global,
    cart: &str,
    script: &str,
    store: &mut S,
    sink: &mut K,
) -> Status
    ensures { Told (K.output sink.old) (K.output sink.new) (S.input store.old) (S.input store.new)
        result (game_of cart.now script.now) (λ game. Plain (ref_answer game)) }
{
    match load_game(alloc, store, cart, script) {
        Ok(game) => refer_game(alloc, &game, sink),
        Err(stop) => put_stop(sink, stop),
    }
}

/// `debug CART COMMANDS`.
#[tactic(auto, using(crate::proofs::Outcomes::tells_debugging, crate::proofs::Outcomes::tells_no_debugging))]
pub fn answer_debug<S: Store, K: Sink>(
    alloc: Global,
    cart: &str,
    commands: &str,
    store: &mut S,
    sink: &mut K,
    rack: &mut Rack,
) -> Status
    ensures { TellsDebugging
        (around (K.output sink.old) (S.input store.old) (map state rack.old.items)
        (sum_by queries rack.old.items))
        (around (K.output sink.new) (S.input store.new) (map state rack.new.items)
        (sum_by queries rack.new.items))
        result (debugging_of cart.now commands.now) }
{
    match load_debugging(alloc, store, cart, commands) {
        Ok(asked) => debug(alloc, &asked, sink, rack),
        Err(stop) => put_stop(sink, stop),
    }
}

/// `audit CART SCRIPT TRACE`.
#[tactic(auto, using(crate::proofs::Outcomes::tells_audit, crate::proofs::Outcomes::tells_no_audit))]
pub fn answer_audit<S: Store, K: Sink>(
    alloc: Global,
    cart: &str,
    script: &str,
    trace: &str,
    store: &mut S,
    sink: &mut K,
    rack: &mut Rack,
) -> Status
    ensures { TellsAudit
        (around (K.output sink.old) (S.input store.old) (map state rack.old.items)
        (sum_by queries rack.old.items))
        (around (K.output sink.new) (S.input store.new) (map state rack.new.items)
        (sum_by queries rack.new.items))
        result (auditing_of cart.now script.now trace.now) }
{
    match load_audit(alloc, store, cart, script, trace) {
        Ok(asked) => audit_trace(alloc, &asked, sink, rack),
        Err(stop) => put_stop(sink, stop),
    }
}

/// `asm FILE`.
#[tactic(auto, using(crate::proofs::Outcomes::told_ok, crate::proofs::Outcomes::told_stop))]
pub fn answer_asm<S: Store, K: Sink>(
    alloc: Global,
    file: &str,
    store: &mut S,
    sink: &mut K,
) -> Status
    ensures { Told (K.output sink.old) (K.output sink.new) (S.input store.old) (S.input store.new)
        result (image_by file.now) (λ picture. Plain (asm_answer picture)) }
{
    match load_image(alloc, store, file) {
        Ok(image) => put_picture(sink, &image),
        Err(stop) => put_stop(sink, stop),
    }
}

/// `link PLAN`.
#[tactic(auto, using(crate::proofs::Outcomes::told_ok, crate::proofs::Outcomes::told_stop))]
pub fn answer_link<S: Store, K: Sink>(
    alloc: Global,
    plan: &str,
    store: &mut S,
    sink: &mut K,
) -> Status
    ensures { Told (K.output sink.old) (K.output sink.new) (S.input store.old) (S.input store.new)
        result (linked_by plan.now) (λ picture. Plain (asm_answer picture)) }
{
    match load_linked(alloc, store, plan) {
        Ok(linked) => put_modules(sink, &linked),
        Err(stop) => put_stop(sink, stop),
    }
}

/// The text of some bytes, at most 65,536.
#[tactic(auto, using(crate::proofs::Games::answers_of, crate::proofs::Games::answers_wanting))]
fn list_bytes<K: Sink>(alloc: Global, bytes: &[u8], sink: &mut K) -> Status
    requires { length bytes.now ≤ 65536 }
    ensures { Answers (K.output sink.old) (K.output sink.new) result
        (dis_answer bytes.now) }
{
    match disassemble(alloc, bytes) {
        Ok(text) => put_text(sink, &text),
        Err(Memory) => Status::Memory,
    }
}

/// `dis FILE`.
#[tactic(auto, using(crate::proofs::Outcomes::told_ok, crate::proofs::Outcomes::told_stop))]
pub fn answer_dis<S: Store, K: Sink>(
    alloc: Global,
    file: &str,
    store: &mut S,
    sink: &mut K,
) -> Status
    ensures { Told (K.output sink.old) (K.output sink.new) (S.input store.old) (S.input store.new)
        result (bytes_by file.now) (λ bytes. Plain (dis_answer bytes)) }
{
    match load_bytes(alloc, store, file) {
        Ok(bytes) => list_bytes(alloc, bytes.as_slice(), sink),
        Err(stop) => put_stop(sink, stop),
    }
}

/// The game of a generated cartridge: it runs for 60 frames, without keys and shown frames.
fn generate(alloc: Global, seed: u32) -> Result<Game, Memory>
    ensures game { IfOk result (λ game. seen_game game ≡ generated_game seed) }
    ensures limits { IfOk result (λ game. HasLimits game.script.end) }
{
    let chips = generated_chips(alloc, seed)?;
    let powers = Powers::usual(chips.as_slice().len());
    Ok(Game {
        cart: Cart {
            split: Split::new(),
            chips,
            powers,
        },
        script: Script {
            power: 0,
            end: End::Frames(60),
            events: EventList::new(alloc),
            shows: ShowList::from_vec(Vec::new(alloc)),
        },
    })
}

/// `gen N`.
pub fn answer_gen<K: Sink>(alloc: Global, seed: u32, sink: &mut K, rack: &mut Rack) -> Status
    ensures answers { AnswersDue (K.output sink.old) (K.output sink.new) result
        (gen_due (map state rack.old.items) seed) }
    ensures safe { KeepsVerdict result
        (Manner.Summary seed) (generated_game seed) (map state rack.old.items) }
    ensures rack { PlaysGame (K.output sink.old) (K.output sink.new) result
        (Manner.Summary seed) (generated_game seed)
        (map state rack.old.items) (map state rack.new.items)
        (sum_by queries rack.old.items) (sum_by queries rack.new.items) }
{
    match generate(alloc, seed) {
        Ok(game) => play_game(alloc, &game, Manner::Summary { seed }, sink, rack),
        Err(Memory) => Status::Memory,
    }
}
