// A game on a rack, and on the flat instruction set alone.
ghost use Rattle.std.specs.Prelude.{◌≡◌, ◌≤◌, None, map, length, sum_by};
ghost use Rattle.f8_spec.specs.BusArbitration.{seat_of};
ghost use Rattle.cpu3850.specs.OwnWrites.{LeaveOwnPorts};
ghost use Rattle.data_bus.specs.Racks.{views};
ghost use Rattle.f8_machine.specs.Refinement.{AreWhole};
ghost use Rattle.loader.specs.Seen.{seen_game};
ghost use Rattle.pad_script.specs.Limits.{HasLimits};
ghost use Rattle.channel_f.specs.Answers.{status_of, refusal as spelled_refusal, judged_run, game_run};
ghost use Rattle.channel_f.specs.Answers.{game_due, ref_answer};
ghost use Rattle.channel_f.specs.JudgedRuns.{PlaysJudged};
ghost use Rattle.channel_f.specs.Manners.{run_fitted, lines_by};
ghost use Rattle.channel_f.specs.Reports.{Answers, AnswersDue, Reports};
ghost use Rattle.channel_f.specs.RackAfter.{OnFitted, Plays, PlaysGame};
ghost use Rattle.channel_f.specs.SafeGames.{KeepsVerdict};

use super::laws::{safe_run_law, script_law};
use super::lines_out::{put_closing, put_ending, put_lines, put_opening};
use super::manner::Manner;
use super::status::Status;
use cart_checker::check_cart;
use chip_face::{Chip, ChipList, MOST_CHIPS};
use f8_machine::{Chain, Rack};
use f8_spec::Memory;
use loader::Game;
use outside::{Sink, SinkFault};
use rack_run::{ReferFault, chain_of, first_shortage, fit_all, play, powers_law, refer};
use report::{Line, VerdictWord};
use std::alloc::Global;

/// The line of why the chips of a description aren't seated on a rack: it has more chips than 16, or too few sockets of a kind.
#[tactic(auto, unfolding(crate::specs::Answers::refusal))]
pub fn refusal(chips: &ChipList, rack: &Rack) -> Option<Line>
    ensures line { result ≡ spelled_refusal chips.now (map state rack.now.items) }
    ensures few { result ≡ None → length rack.now.items ≤ MOST_CHIPS }
{
    if rack.len() > MOST_CHIPS {
        return Some(report::error_rack(rack.len() as u64));
    }
    let shortage = first_shortage(chips, rack)?;
    Some(report::error_sockets(shortage.kind, shortage.need, shortage.have))
}

/// The opening lines, the run, and the closing lines, on a rack that is fitted for the game.
fn play_fitted<K: Sink>(
    game: &Game,
    manner: Manner,
    word: VerdictWord,
    chain: Chain,
    sink: &mut K,
    rack: &mut Rack,
) -> Status
    requires few { length rack.old.items ≤ MOST_CHIPS }
    requires whole { AreWhole (map state rack.old.items) }
    requires ports { LeaveOwnPorts (map seat_of (views (map state rack.old.items))) }
    requires limits { HasLimits game.now.script.end }
    ensures reports { Reports (K.output sink.old) (K.output sink.new) result
        (status_of
        (run_fitted manner (seen_game game.now) chain (map state rack.old.items)).ending.stop)
        (lines_by manner word
        (run_fitted manner (seen_game game.now) chain (map state rack.old.items))) }
    ensures rack { OnFitted (K.output sink.old) (K.output sink.new) result
        manner word game.now.script.power chain (seen_game game.now).cart.powers
        (run_fitted manner (seen_game game.now) chain (map state rack.old.items))
        (map state rack.old.items) (map state rack.new.items)
        (sum_by queries rack.old.items) (sum_by queries rack.new.items) }
{
    let Ok(()) = put_opening(sink, manner, word) else {
        return Status::Sink;
    };
    let detail = manner.detail();
    match play(rack, sink, chain, &game.cart.powers, &game.script, detail) {
        Ok(ending) => put_closing(sink, manner, &ending),
        Err(SinkFault) => Status::Sink,
    }
}

/// The check, and then the run, on a rack that is fitted for the game. Behind the check no memory is needed any more.
fn check_and_play<K: Sink>(
    alloc: Global,
    game: &Game,
    manner: Manner,
    chain: Chain,
    sink: &mut K,
    rack: &mut Rack,
) -> Status
    requires few { length rack.old.items ≤ MOST_CHIPS }
    requires whole { AreWhole (map state rack.old.items) }
    requires ports { LeaveOwnPorts (map seat_of (views (map state rack.old.items))) }
    requires limits { HasLimits game.now.script.end }
    ensures { PlaysJudged (K.output sink.old) (K.output sink.new) result
        manner (seen_game game.now) chain (map state rack.old.items) (map state rack.new.items)
        (sum_by queries rack.old.items) (sum_by queries rack.new.items) }
{
    match check_cart(alloc, &game.cart) {
        Ok(verdict) => play_fitted(game, manner, verdict.word(), chain, sink, rack),
        Err(Memory) => Status::Memory,
    }
}

/// A game on a rack that has a place for it.
fn fit_and_play<K: Sink>(
    alloc: Global,
    game: &Game,
    manner: Manner,
    sink: &mut K,
    rack: &mut Rack,
) -> Status
    requires few { length rack.old.items ≤ MOST_CHIPS }
    requires limits { HasLimits game.now.script.end }
    ensures answers { AnswersDue (K.output sink.old) (K.output sink.new) result
        (judged_run manner (seen_game game.now)
        (game_run manner (seen_game game.now) (map state rack.old.items))) }
    ensures rack { Plays (K.output sink.old) (K.output sink.new) result
        manner (seen_game game.now) (map state rack.old.items) (map state rack.new.items)
        (sum_by queries rack.old.items) (sum_by queries rack.new.items) }
    ensures safe { KeepsVerdict result
        manner (seen_game game.now) (map state rack.old.items) }
{
    safe_run_law();
    script_law(&game.script);
    powers_law(&game.cart.powers);
    let chain = chain_of(&game.cart.chips, rack);
    match fit_all(alloc, &game.cart.chips, rack) {
        Ok(()) => check_and_play(alloc, game, manner, chain, sink, rack),
        Err(Memory) => Status::Memory,
    }
}

/// A game on a rack, if it has a place for it.
pub fn play_game<K: Sink>(
    alloc: Global,
    game: &Game,
    manner: Manner,
    sink: &mut K,
    rack: &mut Rack,
) -> Status
    requires limits { HasLimits game.now.script.end }
    ensures answers { AnswersDue (K.output sink.old) (K.output sink.new) result
        (game_due manner (map state rack.old.items) (seen_game game.now)) }
    ensures safe { KeepsVerdict result
        manner (seen_game game.now) (map state rack.old.items) }
    ensures rack { PlaysGame (K.output sink.old) (K.output sink.new) result
        manner (seen_game game.now) (map state rack.old.items) (map state rack.new.items)
        (sum_by queries rack.old.items) (sum_by queries rack.new.items) }
{
    match refusal(&game.cart.chips, rack) {
        Some(line) => put_lines(sink, [line].as_slice(), Status::Input),
        None => fit_and_play(alloc, game, manner, sink, rack),
    }
}

/// A game on the flat instruction set alone.
pub fn refer_game<K: Sink>(alloc: Global, game: &Game, sink: &mut K) -> Status
    requires limits { HasLimits game.now.script.end }
    ensures { Answers (K.output sink.old) (K.output sink.new) result
        (ref_answer (seen_game game.now)) }
{
    match refer(
        alloc,
        sink,
        &game.cart.chips,
        &game.cart.powers,
        &game.script,
    ) {
        Ok(ending) => put_ending(sink, &ending),
        Err(ReferFault::Memory) => Status::Memory,
        Err(ReferFault::Sink) => Status::Sink,
    }
}
