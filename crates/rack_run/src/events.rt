// The events of a frame, which come to a player one after another.
ghost use Rattle.std.specs.Prelude.{◌≡◌, ◌≤◌, ◌∷◌, [], if◌then◌else◌, length, map, sum_by};
ghost use Rattle.console_spec.specs.Run.{Position};
ghost use Rattle.console_spec.specs.Scripts.{events_at};
ghost use Rattle.console_spec.specs.Telling.{fallen as fallen_at, with_events};
ghost use Rattle.pad_script.specs.Reading.{seen};
ghost use Rattle.rack_run.specs.Asking.{AsksOn};
ghost use Rattle.rack_run.specs.Lives.{Come};
ghost use Rattle.rack_run.specs.Progressing.{Keeps};
ghost use Rattle.rack_run.specs.Turns.{HappenBehind};

use super::player::Player;
use super::progress::Progress;
use chip_face::Chip;
use console_spec::{At, Event};
use f8_machine::Rack;
use pad_script::Script;

/// An event comes, where it is due.
#[tactic(auto, using(crate::proofs::AskingLaws::asks_none))]
fn happen_if<P: Player>(player: &mut P, rack: &mut Rack, event: Event, due: bool)
    requires few { length rack.old.items ≤ P.most_chips }
    requires fits { P.fits player.old (map state rack.old.items) }
    ensures begins { (x : Position) → P.begins player.old (map state rack.old.items) x
        → P.begins player.new (map state rack.new.items)
        (with_events (if due then event ∷ [] else []) x) }
    ensures at { (x : Position) → P.at player.old (map state rack.old.items) x
        → P.at player.new (map state rack.new.items)
        (with_events (if due then event ∷ [] else []) x) }
    ensures came_first { (x : Position) → P.begins player.old (map state rack.old.items) x
        → Come x.chain (if due then event ∷ [] else [])
        (map state rack.old.items) (map state rack.new.items) }
    ensures came { (x : Position) → P.at player.old (map state rack.old.items) x
        → Come x.chain (if due then event ∷ [] else [])
        (map state rack.old.items) (map state rack.new.items) }
    ensures asked { AsksOn
        (P.allowed (length rack.old.items) player.old)
        (P.allowed (length rack.old.items) player.new)
        (sum_by queries rack.old.items) (sum_by queries rack.new.items) [] }
    ensures ready { P.ready player.old → P.ready player.new }
    ensures fits { P.fits player.new (map state rack.new.items) }
    ensures phi { (P.readout player.new).phi ≡ (P.readout player.old).phi }
    ensures chips { length rack.new.items ≡ length rack.old.items }
{
    if due {
        player.happen(rack, event);
    }
}

/// The events of a frame come, one after another.
#[tactic(auto, using(crate::proofs::AskingLaws::asks_none))]
pub(crate) fn happen_at<P: Player>(player: &mut P, rack: &mut Rack, events: &[At], frame: u32)
    requires few { length rack.old.items ≤ P.most_chips }
    requires fits { P.fits player.old (map state rack.old.items) }
    ensures begins { (x : Position) → P.begins player.old (map state rack.old.items) x
        → P.begins player.new (map state rack.new.items)
        (with_events (events_at frame events.now) x) }
    ensures at { (x : Position) → P.at player.old (map state rack.old.items) x
        → P.at player.new (map state rack.new.items) (with_events (events_at frame events.now) x) }
    ensures came_first { (x : Position) → P.begins player.old (map state rack.old.items) x
        → Come x.chain (events_at frame events.now)
        (map state rack.old.items) (map state rack.new.items) }
    ensures came { (x : Position) → P.at player.old (map state rack.old.items) x
        → Come x.chain (events_at frame events.now)
        (map state rack.old.items) (map state rack.new.items) }
    ensures asked { AsksOn
        (P.allowed (length rack.old.items) player.old)
        (P.allowed (length rack.old.items) player.new)
        (sum_by queries rack.old.items) (sum_by queries rack.new.items) [] }
    ensures ready { P.ready player.old → P.ready player.new }
    ensures fits { P.fits player.new (map state rack.new.items) }
    ensures phi { (P.readout player.new).phi ≡ (P.readout player.old).phi }
    ensures chips { length rack.new.items ≡ length rack.old.items }
{
    for at in events {
        happen_if(player, rack, at.event, at.frame == frame);
    }
}

/// The events behind an instruction that is done come: those of the frame that falls there, but for the one at which the run ends.
#[tactic(auto, using(crate::proofs::AskingLaws::asks_none))]
pub(crate) fn happen_behind<P: Player>(
    player: &mut P,
    rack: &mut Rack,
    progress: &Progress,
    script: &Script,
    fallen: Option<u32>,
)
    requires few { length rack.old.items ≤ P.most_chips }
    requires fits { P.fits player.old (map state rack.old.items) }
    ensures behind { (x y : Position) → P.at player.old (map state rack.old.items) y
        → Keeps progress.now y.flat.state
        → fallen ≡ fallen_at x.flat.state y.flat.state
        → HappenBehind (seen script.now) (P.at player.new (map state rack.new.items))
        (map state rack.old.items) (map state rack.new.items) x y }
    ensures asked { AsksOn
        (P.allowed (length rack.old.items) player.old)
        (P.allowed (length rack.old.items) player.new)
        (sum_by queries rack.old.items) (sum_by queries rack.new.items) [] }
    ensures ready { P.ready player.old → P.ready player.new }
    ensures fits { P.fits player.new (map state rack.new.items) }
    ensures phi { (P.readout player.new).phi ≡ (P.readout player.old).phi }
    ensures chips { length rack.new.items ≡ length rack.old.items }
{
    let Some(frame) = fallen else {
        return;
    };
    if progress.is_over(script.end) {
        return;
    }
    happen_at(player, rack, script.events.as_slice(), frame);
}
