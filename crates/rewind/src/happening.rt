// An event on a machine and its rack.
ghost use Rattle.std.specs.Prelude.{◌≡◌, ◌≤◌, List, None, length, map};
ghost use Rattle.f8_spec.specs.ChipState.{ChipView};
ghost use Rattle.data_bus.specs.Racks.{views};
ghost use Rattle.f8_machine.specs.Fitting.{Fits};
ghost use Rattle.rewind.specs.Asking.{allowed_since_power};
ghost use Rattle.rewind.specs.PowerAlike.{PowerAlike};
ghost use Rattle.rewind.specs.Reached.{Reached, happened};
ghost use Rattle.rewind.specs.Standing.{HasReached, patches};
ghost use Rattle.rewind.specs.Tape.{HasCome};

use chip_face::{Chip, MOST_CHIPS};
use console_spec::Event;
use f8_machine::{Machine, Rack};

/// A key byte or a pulse comes.
pub(crate) fn happen(machine: &mut Machine, event: Event, rack: &mut Rack)
    requires few { length rack.old.items ≤ MOST_CHIPS }
    requires fits { Fits machine.old (map state rack.old.items) }
    ensures there { (r : Reached) → HasReached machine.old (map state rack.old.items) r →
        r.stop ≡ None → HasReached machine.new (map state rack.new.items) (happened event r) }
    ensures allowed { (r : Reached) → HasReached machine.old (map state rack.old.items) r →
        r.stop ≡ None → allowed_since_power (happened event r) ≡ allowed_since_power r }
    ensures came { HasCome event machine.old machine.new
        (map state rack.old.items) (map state rack.new.items) }
    ensures alike { (first : List ChipView) → PowerAlike (views (map state rack.old.items)) first →
        PowerAlike (views (map state rack.new.items)) first }
    ensures mode { machine.new.mode ≡ machine.old.mode }
    ensures phi { machine.new.phi ≡ machine.old.phi }
    ensures chain { machine.new.chain ≡ machine.old.chain }
    ensures asked { map queries rack.new.items ≡ map queries rack.old.items }
    ensures patches { patches (map state rack.new.items) ≡ patches (map state rack.old.items) }
    ensures fits { Fits machine.new (map state rack.new.items) }
    ensures chips { length rack.new.items ≡ length rack.old.items }
{
    match event {
        Event::Keys { port, byte } => machine.keys(rack, port, byte),
        Event::Pulse { chip } => machine.pulse(rack, chip),
    }
}
