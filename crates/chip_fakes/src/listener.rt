// A chip that tells the steps that it heard.
ghost use Rattle.std.specs.Prelude.{◌≡◌, ◌≤◌, IfOk};
ghost use Rattle.f8_spec.specs.ChipState.{told_step};
ghost use Rattle.chip_fakes.specs.RecorderView.{heard_step};

use super::recorder::{Heard, Recorder};
use super::round::Round;
use chip_face::{Chip, ChipKind, ChipSpec, FitFault, Memory, Offer};
use pio3861::Pio;
use psu3851::Psu;
use romc_table::{Counters, Romc};
use smi3853::Smi;
use std::alloc::Global;

/// A chip that tells the steps that it heard since power-on, as long as they are no more than its room. Past that it no longer tells. It
/// has no patch. What it tells is seen by contracts alone.
#[derive(Drop)]
pub struct Listener {
    chip: Round,
    recorder: Recorder,
}

impl Listener {
    ghost use Rattle.f8_spec.specs.declared.chips.ChipKind.TheVariants.{Psu as PsuKind, Smi as SmiKind, Pio as PioKind};
    ghost use Rattle.chip_fakes.specs.ListenerState.{blank_listener, listener_state, listener_queries, recording_of};

    /// A blank 3851 that tells up to `room` steps, at most 1,000,000, or want of memory: the room is taken here.
    pub fn round_psu(alloc: Global, room: u32) -> Result<Listener, Memory>
        requires { room ≤ 1000000 }
        ensures state { IfOk result (λ listener. listener_state listener ≡ blank_listener PsuKind) }
        ensures asked { IfOk result (λ listener. listener_queries listener ≡ 0) }
        ensures room { IfOk result (λ listener. (recording_of listener).room ≡ room) }
    {
        Ok(Listener {
            chip: Round::OfPsu(Psu::blank()),
            recorder: Recorder::with_room(alloc, room)?,
        })
    }

    /// A blank 3853 that tells up to `room` steps, at most 1,000,000, or want of memory: the room is taken here.
    pub fn round_smi(alloc: Global, room: u32) -> Result<Listener, Memory>
        requires { room ≤ 1000000 }
        ensures state { IfOk result (λ listener. listener_state listener ≡ blank_listener SmiKind) }
        ensures asked { IfOk result (λ listener. listener_queries listener ≡ 0) }
        ensures room { IfOk result (λ listener. (recording_of listener).room ≡ room) }
    {
        Ok(Listener {
            chip: Round::OfSmi(Smi::blank()),
            recorder: Recorder::with_room(alloc, room)?,
        })
    }

    /// A blank 3861 that tells up to `room` steps, at most 1,000,000, or want of memory: the room is taken here.
    pub fn round_pio(alloc: Global, room: u32) -> Result<Listener, Memory>
        requires { room ≤ 1000000 }
        ensures state { IfOk result (λ listener. listener_state listener ≡ blank_listener PioKind) }
        ensures asked { IfOk result (λ listener. listener_queries listener ≡ 0) }
        ensures room { IfOk result (λ listener. (recording_of listener).room ≡ room) }
    {
        Ok(Listener {
            chip: Round::OfPio(Pio::blank()),
            recorder: Recorder::with_room(alloc, room)?,
        })
    }
}

/// A step as it is told: with the mark in the two codes of an acknowledgement alone.
fn told(romc: Romc, byte: u8, phi: u8, first: bool) -> Heard
    ensures { heard_step result ≡ told_step
        (record { romc = romc; byte = byte; clocks = phi; first = first }) }
{
    let acknowledges = matches!(romc, Romc::VECTOR_LOW | Romc::VECTOR_HIGH);
    Heard {
        romc,
        byte,
        phi,
        first: first && acknowledges,
    }
}

impl Chip for Listener {
    ghost use Rattle.std.specs.Prelude.{◌≡◌, ◌≢◌, ◌↔◌, false, OnOk, OnErr, IsErrOf};
    ghost use Rattle.f8_spec.specs.ChipState.{IsWhole, MayHear, PowersOn, Settles, TakesKeys, TakesPulse, told_step};
    ghost use Rattle.f8_spec.specs.ChipState.{has_ram_at, held_byte, latch_at, offered, told_counters};
    ghost use Rattle.chip_face.specs.Fitting.{FitsAs, IsSpec, is_blank, kind_of};
    ghost use Rattle.chip_face.specs.Queries.{one_more};
    ghost use Rattle.chip_face.specs.Steps.{IsStepLength};
    ghost use Rattle.chip_fakes.specs.ListenerState.{listener_state, listener_queries, recording_of};
    ghost use Rattle.chip_fakes.specs.Recording.{emptied, recorded};

    ghost state = { listener_state };

    ghost queries = { listener_queries };

    fn kind(&self) -> ChipKind {
        self.chip.kind()
    }

    fn fit(&mut self, alloc: Global, spec: &ChipSpec) -> Result<(), FitFault>
        requires { IsSpec spec.now }
        ensures ok { OnOk result (FitsAs spec.now (listener_state self.old)
            (listener_state self.new)) }
        ensures whole { OnOk result (IsWhole (listener_state self.new).view) }
        ensures wrong_kind { IsErrOf result FitFault.WrongKind
            ↔ (kind_of spec.now ≢ (listener_state self.old).view.kind) }
        ensures memory { IsErrOf result FitFault.Memory → is_blank spec.now ≡ false }
        ensures err { OnErr result (listener_state self.new ≡ listener_state self.old) }
        ensures asked { listener_queries self.new ≡ listener_queries self.old }
        ensures recording { recording_of self.new ≡ recording_of self.old }
    {
        self.chip.fit(alloc, spec)
    }

    fn power(&mut self, fill: u8, start: u16)
        ensures powers { PowersOn fill start (listener_state self.old) (listener_state self.new) }
        ensures asked { listener_queries self.new ≡ listener_queries self.old }
        ensures recording { recording_of self.new ≡ emptied (recording_of self.old) }
    {
        self.chip.power(fill, start);
        self.recorder.forget();
    }

    fn offer(&mut self, romc: Romc, first: bool) -> Option<Offer>
        requires { MayHear romc first (listener_state self.old).view }
        ensures answer { result ≡ offered romc first (listener_state self.old).view }
        ensures stays { listener_state self.new ≡ listener_state self.old }
        ensures asked { listener_queries self.new ≡ one_more (listener_queries self.old) }
        ensures recording { recording_of self.new ≡ recording_of self.old }
    {
        self.chip.offer(romc, first)
    }

    #[tactic(auto, using(crate::proofs::Hearing::hears_recorded))]
    fn settle(&mut self, romc: Romc, byte: u8, phi: u8, first: bool)
        requires step_length { IsStepLength phi }
        requires may_hear { MayHear romc first (listener_state self.old).view }
        ensures settles { Settles (record {
          romc = romc;
          byte = byte;
          clocks = phi;
          first = first;
        }) (listener_state self.old) (listener_state self.new) }
        ensures asked { listener_queries self.new ≡ listener_queries self.old }
        ensures recording { recording_of self.new
            ≡ recorded (told_step (record {
              romc = romc;
              byte = byte;
              clocks = phi;
              first = first;
            })) (recording_of self.old) }
    {
        self.chip.settle(romc, byte, phi, first);
        self.recorder.hear(told(romc, byte, phi, first));
    }

    fn asks(&self) -> bool {
        self.chip.asks()
    }

    fn counters(&mut self) -> Counters
        ensures answer { result ≡ told_counters (listener_state self.old).view }
        ensures stays { listener_state self.new ≡ listener_state self.old }
        ensures asked { listener_queries self.new ≡ one_more (listener_queries self.old) }
        ensures recording { recording_of self.new ≡ recording_of self.old }
    {
        self.chip.counters()
    }

    fn peek(&mut self, at: u16) -> Option<u8>
        ensures answer { result ≡ held_byte (listener_state self.old).view at }
        ensures stays { listener_state self.new ≡ listener_state self.old }
        ensures asked { listener_queries self.new ≡ one_more (listener_queries self.old) }
        ensures recording { recording_of self.new ≡ recording_of self.old }
    {
        self.chip.peek(at)
    }

    fn takes(&mut self, at: u16) -> bool
        ensures answer { result ≡ has_ram_at (listener_state self.old).view at }
        ensures stays { listener_state self.new ≡ listener_state self.old }
        ensures asked { listener_queries self.new ≡ one_more (listener_queries self.old) }
        ensures recording { recording_of self.new ≡ recording_of self.old }
    {
        self.chip.takes(at)
    }

    fn latch(&mut self, port: u8) -> Option<u8>
        ensures answer { result ≡ latch_at (listener_state self.old).view port }
        ensures stays { listener_state self.new ≡ listener_state self.old }
        ensures asked { listener_queries self.new ≡ one_more (listener_queries self.old) }
        ensures recording { recording_of self.new ≡ recording_of self.old }
    {
        self.chip.latch(port)
    }

    fn keys(&mut self, port: u8, byte: u8)
        ensures takes { TakesKeys port byte (listener_state self.old) (listener_state self.new) }
        ensures asked { listener_queries self.new ≡ listener_queries self.old }
        ensures recording { recording_of self.new ≡ recording_of self.old }
    {
        self.chip.keys(port, byte);
    }

    fn pulse(&mut self)
        ensures takes { TakesPulse (listener_state self.old) (listener_state self.new) }
        ensures asked { listener_queries self.new ≡ listener_queries self.old }
        ensures recording { recording_of self.new ≡ recording_of self.old }
    {
        self.chip.pulse();
    }

    fn asked(&self) -> u64 {
        self.chip.asked()
    }
}
