// What a run by a script is carried out by: a machine with its rack, or the flat instruction set alone.
ghost use Rattle.std.specs.Prelude.{◌≡◌, ◌≤◌, ◌<◌, ◌+◌, ◌^◌, ℕ, List, [], length, map, sum_by};
ghost use Rattle.std.specs.Prelude.{IfOk, IfErr, OnOk, OnErr};
ghost use Rattle.console_spec.specs.Run.{Position};
ghost use Rattle.console_spec.specs.Telling.{Way, with_event};
ghost use Rattle.f8_spec.specs.ChipState.{ChipState};
ghost use Rattle.rack_run.specs.Asking.{AsksOn, AsksWithin, turn_codes};
ghost use Rattle.rack_run.specs.Lives.{ComesTo};
ghost use Rattle.rack_run.specs.Turns.{Readout, readout_of, regs_of, StepsDone, StepsCut};
ghost use Rattle.rack_run.specs.declared.detail.Detail.{Detail};

use super::detail::Detail;
use super::ending::Cut;
use chip_face::Chip;
use console_board::PortWrite;
use console_spec::{Event, Regs};
use f8_machine::Rack;
use f8_ops::MOST_INTERRUPTED_PHI;
use outside::Sink;

/// What carries out a run's instructions. It is lent a rack in each call, of so many chips at most: the flat instruction set alone has none.
///
/// Contracts see the positions that it stands at with the rack, before reset and after it, the way by which it goes on, what it tells of
/// itself, when it is ready for an instruction, and that it and the rack fit each other, which they do from power-on on; and how many
/// questions coming steps, by their codes, may put to a rack of so many chips.
pub(crate) trait Player {
    ghost most_chips: { ℕ };

    ghost way: { Detail → Way };

    ghost begins: { Self → List ChipState → Position → Type 0 };

    ghost at: { Self → List ChipState → Position → Type 0 };

    ghost readout: { Self → Readout };

    ghost ready: { Self → Type 0 };

    ghost fits: { Self → List ChipState → Type 0 };

    ghost allowed: { ℕ → Self → List ℕ → ℕ };

    /// The next instruction, with its write, where a port took one; its bus steps are told. Or what cuts the run short there.
    fn advance<K: Sink>(
        &mut self,
        rack: &mut Rack,
        sink: &mut K,
        detail: Detail,
    ) -> Result<Option<PortWrite>, Cut>
        requires few { length rack.old.items ≤ most_chips }
        requires ready { ready self.old }
        requires fits { fits self.old (map state rack.old.items) }
        requires bounded { (readout self.old).phi < 2 ^ 62 }
        ensures goes { (x : Position) → at self.old (map state rack.old.items) x
            → IfOk result (λ wrote. StepsDone detail (way detail)
            (at self.new (map state rack.new.items)) wrote
            (map state rack.old.items) (map state rack.new.items)
            (K.output sink.old) (K.output sink.new) x) }
        ensures cut { (x : Position) → at self.old (map state rack.old.items) x
            → IfErr result (λ cut. StepsCut detail (way detail) (readout self.new)
            (map state rack.old.items) (map state rack.new.items)
            (K.output sink.old) (K.output sink.new) x cut) }
        ensures asked { (x : Position) → at self.old (map state rack.old.items) x
            → OnOk result (AsksOn
            (allowed (length rack.old.items) self.old) (allowed (length rack.old.items) self.new)
            (sum_by queries rack.old.items) (sum_by queries rack.new.items)
            (turn_codes (way detail) x)) }
        ensures asked_cut { (x : Position) → at self.old (map state rack.old.items) x
            → OnErr result (AsksWithin (allowed (length rack.old.items) self.old)
            (sum_by queries rack.old.items) (sum_by queries rack.new.items)
            (turn_codes (way detail) x)) }
        ensures clocks { (readout self.new).phi ≤ (readout self.old).phi + MOST_INTERRUPTED_PHI }
        ensures onward { (readout self.old).phi ≤ (readout self.new).phi }
        ensures ready { ready self.new }
        ensures fits { fits self.new (map state rack.new.items) }
        ensures chips { length rack.new.items ≡ length rack.old.items };

    /// An event comes.
    fn happen(&mut self, rack: &mut Rack, event: Event)
        requires few { length rack.old.items ≤ most_chips }
        requires fits { fits self.old (map state rack.old.items) }
        ensures begins { (x : Position) → begins self.old (map state rack.old.items) x
            → begins self.new (map state rack.new.items) (with_event event x) }
        ensures at { (x : Position) → at self.old (map state rack.old.items) x
            → at self.new (map state rack.new.items) (with_event event x) }
        ensures came_first { (x : Position) → begins self.old (map state rack.old.items) x
            → ComesTo x.chain event (map state rack.old.items) (map state rack.new.items) }
        ensures came { (x : Position) → at self.old (map state rack.old.items) x
            → ComesTo x.chain event (map state rack.old.items) (map state rack.new.items) }
        ensures asked { AsksOn
            (allowed (length rack.old.items) self.old) (allowed (length rack.old.items) self.new)
            (sum_by queries rack.old.items) (sum_by queries rack.new.items) [] }
        ensures ready { ready self.old → ready self.new }
        ensures fits { fits self.new (map state rack.new.items) }
        ensures phi { (readout self.new).phi ≡ (readout self.old).phi }
        ensures chips { length rack.new.items ≡ length rack.old.items };

    /// The counters and registers, after the last instruction that was done.
    fn registers(&self) -> Regs
        ensures regs { result ≡ regs_of (readout self.now) }
        ensures isar { result.isar < 64 };

    /// The clocks of reset and of the instructions that were done, in Φ.
    fn clocks(&self) -> u64
        ensures { result ≡ (readout self.now).phi };

    ghost reads: { (p : Self) (states : List ChipState) (x : Position) → at p states x
        → readout p ≡ readout_of x.flat.state };
}
