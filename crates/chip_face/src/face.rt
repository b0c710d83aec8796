// The trait of a chip: what the bus asks of it, and what it hears.
use super::{ChipKind, ChipSpec, FitFault, Offer};
use romc_table::{Counters, Romc};
use std::alloc::Global;

/// A chip on the bus (Mostek 3851, 3853 and 3861 data sheets). Each storage chip keeps a program counter, a stack register and data
/// counters of its own, hears every bus step, and answers where its own copy lies in its own space; a 3861 has ports alone. In a bus
/// step every chip first offers, and then, if the step is served, every chip settles. Only `fit` takes memory.
///
/// `offer`, `counters`, `peek`, `takes` and `latch` are the *questions* that are put to a chip. They change nothing but their count.
///
/// Contracts see a chip as its `state`: the view, the steps heard where it tells them, and its patch; and beside it, as `queries`, how
/// many questions were put to it. Each question raises that number by one, or leaves it where it is the greatest u64, and no other
/// call changes it. A chip that is made has 0. The count is this project's own.
pub trait Chip: Drop {
    ghost use Rattle.std.specs.Prelude.{◌≡◌, ◌≢◌, ◌↔◌, OnOk, OnErr, IsErrOf};
    ghost use Rattle.f8_spec.specs.ChipState.{ChipState, IsWhole, MayHear, PowersOn, Settles, TakesKeys, TakesPulse};
    ghost use Rattle.f8_spec.specs.ChipState.{has_ram_at, held_byte, is_asking, latch_at, offered, told_counters};
    ghost use Rattle.chip_face.specs.Fitting.{FitsAs, IsSpec, kind_of};
    ghost use Rattle.chip_face.specs.Queries.{one_more};
    ghost use Rattle.chip_face.specs.Steps.{IsStepLength};
    ghost use Rattle.std.specs.Prelude.{ℕ};

    ghost state: { Self → ChipState };

    ghost queries: { Self → ℕ };

    /// The kind of the chip, which stays.
    fn kind(&self) -> ChipKind
        ensures { result ≡ (state self.now).view.kind };

    /// Makes the chip the specified one, before power-on. `WrongKind` comes exactly where the specification is for another kind of
    /// chip; whether and when `Memory` comes, each kind of chip says. After any fault the chip is as it was.
    fn fit(&mut self, alloc: Global, spec: &ChipSpec) -> Result<(), FitFault>
        requires { IsSpec spec.now }
        ensures ok { OnOk result (FitsAs spec.now (state self.old) (state self.new)) }
        ensures whole { OnOk result (IsWhole (state self.new).view) }
        ensures wrong_kind { IsErrOf result FitFault.WrongKind
            ↔ (kind_of spec.now ≢ (state self.old).view.kind) }
        ensures err { OnErr result (state self.new ≡ state self.old) }
        ensures asked { queries self.new ≡ queries self.old };

    /// Power-on: every counter at `start`, every RAM byte `fill`. A chip without counters tells 0 for each.
    fn power(&mut self, fill: u8, start: u16)
        ensures powers { PowersOn fill start (state self.old) (state self.new) }
        ensures asked { queries self.new ≡ queries self.old };

    /// What the chip drives in a step with this code, and the own address, port or vector by which it does; in the codes 05 and 1A,
    /// that it takes the byte. `None` where it does neither. `first` marks the chip whose interrupt is acknowledged.
    fn offer(&mut self, romc: Romc, first: bool) -> Option<Offer>
        requires { MayHear romc first (state self.old).view }
        ensures answer { result ≡ offered romc first (state self.old).view }
        ensures stays { state self.new ≡ state self.old }
        ensures asked { queries self.new ≡ one_more (queries self.old) };

    /// Hears a bus step: its code, its byte, and its length in Φ, which is 4 or 6. The chip's timer
    /// passes that time before the code has its effect, under the control as it was.
    fn settle(&mut self, romc: Romc, byte: u8, phi: u8, first: bool)
        requires step_length { IsStepLength phi }
        requires may_hear { MayHear romc first (state self.old).view }
        ensures settles { Settles (record { romc = romc; byte = byte; clocks = phi; first = first })
            (state self.old) (state self.new) }
        ensures asked { queries self.new ≡ queries self.old };

    /// The chip can interrupt, and a request is latched.
    fn asks(&self) -> bool
        ensures { result ≡ is_asking (state self.now).view };

    /// The chip's own counters. A 3851 has no second data counter, and a 3861 none at all: it tells 0.
    fn counters(&mut self) -> Counters
        ensures answer { result ≡ told_counters (state self.old).view }
        ensures stays { state self.new ≡ state self.old }
        ensures asked { queries self.new ≡ one_more (queries self.old) };

    /// The byte at an address that the chip holds, and `None` at another.
    fn peek(&mut self, at: u16) -> Option<u8>
        ensures answer { result ≡ held_byte (state self.old).view at }
        ensures stays { state self.new ≡ state self.old }
        ensures asked { queries self.new ≡ one_more (queries self.old) };

    /// The address lies in a RAM page of the chip.
    fn takes(&mut self, at: u16) -> bool
        ensures answer { result ≡ has_ram_at (state self.old).view at }
        ensures stays { state self.new ≡ state self.old }
        ensures asked { queries self.new ≡ one_more (queries self.old) };

    /// The latch of a data port, and `None` where the port is not a data port of the chip.
    fn latch(&mut self, port: u8) -> Option<u8>
        ensures answer { result ≡ latch_at (state self.old).view port }
        ensures stays { state self.new ≡ state self.old }
        ensures asked { queries self.new ≡ one_more (queries self.old) };

    /// Sets the key byte of a data port. On a port that is not a data port of the chip nothing changes.
    fn keys(&mut self, port: u8, byte: u8)
        ensures takes { TakesKeys port byte (state self.old) (state self.new) }
        ensures asked { queries self.new ≡ queries self.old };

    /// An external pulse: a request is latched where the low two bits of control are 1, and else nothing changes.
    fn pulse(&mut self)
        ensures takes { TakesPulse (state self.old) (state self.new) }
        ensures asked { queries self.new ≡ queries self.old };

    /// How many questions were put to the chip.
    fn asked(&self) -> u64
        ensures { result ≡ queries self.now };
}
