// A chip of one of the three kinds.
use chip_face::{Chip, ChipKind, ChipSpec, FitFault, Offer};
use pio3861::Pio;
use psu3851::Psu;
use romc_table::{Counters, Romc};
use smi3853::Smi;
use std::alloc::Global;

/// A chip of one of the three kinds, which tells no step that it heard and has no patch.
#[derive(Drop)]
pub enum Round {
    OfPsu(Psu),
    OfSmi(Smi),
    OfPio(Pio),
}

impl Chip for Round {
    ghost use Rattle.std.specs.Prelude.{◌≡◌, ◌≢◌, ◌↔◌, false, OnOk, OnErr, IsErrOf};
    ghost use Rattle.f8_spec.specs.ChipState.{IsWhole};
    ghost use Rattle.chip_face.specs.Fitting.{FitsAs, IsSpec, is_blank, kind_of};
    ghost use Rattle.chip_fakes.specs.Rounds.{round_state, round_queries};

    ghost state = { round_state };

    ghost queries = { round_queries };

    fn kind(&self) -> ChipKind {
        match self {
            Round::OfPsu(psu) => psu.kind(),
            Round::OfSmi(smi) => smi.kind(),
            Round::OfPio(pio) => pio.kind(),
        }
    }

    fn fit(&mut self, alloc: Global, spec: &ChipSpec) -> Result<(), FitFault>
        requires { IsSpec spec.now }
        ensures ok { OnOk result (FitsAs spec.now (round_state self.old) (round_state self.new)) }
        ensures whole { OnOk result (IsWhole (round_state self.new).view) }
        ensures wrong_kind { IsErrOf result FitFault.WrongKind
            ↔ (kind_of spec.now ≢ (round_state self.old).view.kind) }
        ensures memory { IsErrOf result FitFault.Memory → is_blank spec.now ≡ false }
        ensures err { OnErr result (round_state self.new ≡ round_state self.old) }
        ensures asked { round_queries self.new ≡ round_queries self.old }
    {
        match self {
            Round::OfPsu(psu) => psu.fit(alloc, spec),
            Round::OfSmi(smi) => smi.fit(alloc, spec),
            Round::OfPio(pio) => pio.fit(alloc, spec),
        }
    }

    fn power(&mut self, fill: u8, start: u16) {
        match self {
            Round::OfPsu(psu) => psu.power(fill, start),
            Round::OfSmi(smi) => smi.power(fill, start),
            Round::OfPio(pio) => pio.power(fill, start),
        }
    }

    fn offer(&mut self, romc: Romc, first: bool) -> Option<Offer> {
        match self {
            Round::OfPsu(psu) => psu.offer(romc, first),
            Round::OfSmi(smi) => smi.offer(romc, first),
            Round::OfPio(pio) => pio.offer(romc, first),
        }
    }

    fn settle(&mut self, romc: Romc, byte: u8, phi: u8, first: bool) {
        match self {
            Round::OfPsu(psu) => psu.settle(romc, byte, phi, first),
            Round::OfSmi(smi) => smi.settle(romc, byte, phi, first),
            Round::OfPio(pio) => pio.settle(romc, byte, phi, first),
        }
    }

    fn asks(&self) -> bool {
        match self {
            Round::OfPsu(psu) => psu.asks(),
            Round::OfSmi(smi) => smi.asks(),
            Round::OfPio(pio) => pio.asks(),
        }
    }

    fn counters(&mut self) -> Counters {
        match self {
            Round::OfPsu(psu) => psu.counters(),
            Round::OfSmi(smi) => smi.counters(),
            Round::OfPio(pio) => pio.counters(),
        }
    }

    fn peek(&mut self, at: u16) -> Option<u8> {
        match self {
            Round::OfPsu(psu) => psu.peek(at),
            Round::OfSmi(smi) => smi.peek(at),
            Round::OfPio(pio) => pio.peek(at),
        }
    }

    fn takes(&mut self, at: u16) -> bool {
        match self {
            Round::OfPsu(psu) => psu.takes(at),
            Round::OfSmi(smi) => smi.takes(at),
            Round::OfPio(pio) => pio.takes(at),
        }
    }

    fn latch(&mut self, port: u8) -> Option<u8> {
        match self {
            Round::OfPsu(psu) => psu.latch(port),
            Round::OfSmi(smi) => smi.latch(port),
            Round::OfPio(pio) => pio.latch(port),
        }
    }

    fn keys(&mut self, port: u8, byte: u8) {
        match self {
            Round::OfPsu(psu) => psu.keys(port, byte),
            Round::OfSmi(smi) => smi.keys(port, byte),
            Round::OfPio(pio) => pio.keys(port, byte),
        }
    }

    fn pulse(&mut self) {
        match self {
            Round::OfPsu(psu) => psu.pulse(),
            Round::OfSmi(smi) => smi.pulse(),
            Round::OfPio(pio) => pio.pulse(),
        }
    }

    fn asked(&self) -> u64 {
        match self {
            Round::OfPsu(psu) => psu.asked(),
            Round::OfSmi(smi) => smi.asked(),
            Round::OfPio(pio) => pio.asked(),
        }
    }
}
