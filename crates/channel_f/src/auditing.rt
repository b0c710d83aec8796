// An audit of a trace on a rack.
ghost use Rattle.std.specs.Prelude.{◌≡◌, ◌≢◌, ◌≤◌, length, map, sum_by};
ghost use Rattle.f8_spec.specs.BusArbitration.{seat_of};
ghost use Rattle.cpu3850.specs.OwnWrites.{LeaveOwnPorts};
ghost use Rattle.data_bus.specs.Racks.{views};
ghost use Rattle.bus_audit.specs.Audits.{Audits};
ghost use Rattle.f8_machine.specs.Refinement.{AreWhole};
ghost use Rattle.loader.specs.Seen.{seen_auditing};
ghost use Rattle.rack_run.specs.Seating.{fitted_views};
ghost use Rattle.channel_f.specs.Answers.{audit_answer, audit_by, audit_due, audited_answer, game_chain};
ghost use Rattle.channel_f.specs.Answers.{refusal as spelled_refusal};
ghost use Rattle.channel_f.specs.ExactAudits.{AnswersExactly, FindsExactly};
ghost use Rattle.channel_f.specs.RackAudited.{AuditsRack, AuditsUnless, audit_begun};
ghost use Rattle.channel_f.specs.Reports.{Answers, AnswersDue, Reports};

use super::audit_lines::put_audited;
use super::lines_out::put_lines;
use super::playing::refusal;
use super::status::Status;
use bus_audit::audit;
use chip_face::{Chip, MOST_CHIPS};
use f8_machine::{Chain, Rack};
use f8_spec::Memory;
use loader::Auditing;
use outside::Sink;
use rack_run::{chain_of, fit_all};
use std::alloc::Global;

/// An audit on a rack that is fitted for the cartridge, and its line. It takes no memory.
#[tactic(auto, unfolding(crate::specs::Answers::audit_by))]
fn audit_fitted<K: Sink>(asked: &Auditing, chain: Chain, sink: &mut K, rack: &mut Rack) -> Status
    requires few { length rack.old.items ≤ MOST_CHIPS }
    requires whole { AreWhole (map state rack.old.items) }
    requires ports { LeaveOwnPorts (map seat_of (views (map state rack.old.items))) }
    requires steps { length asked.now.trace.told ≤ 2000000 }
    ensures reports { let due = audited_answer
        (audit_by (seen_auditing asked.now) chain (views (map state rack.old.items))) in
        Reports (K.output sink.old) (K.output sink.new) result due.status due.lines }
    ensures exact { FindsExactly
        (seen_auditing asked.now) chain (views (map state rack.old.items)) }
    ensures audits { Audits
        (audit_begun (seen_auditing asked.now) chain (map state rack.old.items)
        (sum_by queries rack.old.items))
        (audit_by (seen_auditing asked.now) chain (views (map state rack.old.items)))
        (map state rack.new.items) (sum_by queries rack.new.items) }
{
    let found = audit(
        &asked.game.cart,
        chain,
        &asked.game.script,
        &asked.trace,
        rack,
    );
    put_audited(sink, found)
}

/// An audit on a rack that has a place for the cartridge's chips.
fn fit_and_audit<K: Sink>(alloc: Global, asked: &Auditing, sink: &mut K, rack: &mut Rack) -> Status
    requires few { length rack.old.items ≤ MOST_CHIPS }
    requires steps { length asked.now.trace.told ≤ 2000000 }
    ensures answers { Answers (K.output sink.old) (K.output sink.new) result
        (audit_answer (seen_auditing asked.now) (map state rack.old.items)) }
    ensures rack { AuditsRack result (seen_auditing asked.now)
        (map state rack.old.items) (map state rack.new.items)
        (sum_by queries rack.old.items) (sum_by queries rack.new.items) }
    ensures exact { result ≢ Status.Memory → FindsExactly (seen_auditing asked.now)
        (game_chain (seen_auditing asked.now).game (map state rack.old.items))
        (fitted_views asked.now.game.cart.chips (map state rack.old.items)) }
{
    let chain = chain_of(&asked.game.cart.chips, rack);
    match fit_all(alloc, &asked.game.cart.chips, rack) {
        Ok(()) => audit_fitted(asked, chain, sink, rack),
        Err(Memory) => Status::Memory,
    }
}

/// An audit on a rack, if it has a place for the cartridge's chips.
pub fn audit_trace<K: Sink>(
    alloc: Global,
    asked: &Auditing,
    sink: &mut K,
    rack: &mut Rack,
) -> Status
    requires steps { length asked.now.trace.told ≤ 2000000 }
    ensures answers { AnswersDue (K.output sink.old) (K.output sink.new) result
        (audit_due (map state rack.old.items) (seen_auditing asked.now)) }
    ensures rack { AuditsUnless
        (spelled_refusal asked.now.game.cart.chips (map state rack.old.items))
        result (seen_auditing asked.now) (map state rack.old.items) (map state rack.new.items)
        (sum_by queries rack.old.items) (sum_by queries rack.new.items) }
    ensures exact { AnswersExactly result
        (seen_auditing asked.now) (map state rack.old.items) }
{
    match refusal(&asked.game.cart.chips, rack) {
        Some(line) => put_lines(sink, [line].as_slice(), Status::Input),
        None => fit_and_audit(alloc, asked, sink, rack),
    }
}
