// A 3851 with one changed byte.
ghost use Rattle.std.specs.Prelude.{◌≡◌, ◌%◌, IfOk, length};
ghost use Rattle.f8_spec.specs.ChipState.{patched_bytes};
ghost use Rattle.chip_face.specs.Fitting.{psu_pages};

use chip_face::{Bytes, Chip, ChipKind, ChipSpec, FitFault, Memory, Offer};
use psu3851::Psu;
use romc_table::{Counters, Romc};
use std::alloc::Global;

/// A 3851 with a patch: where its ROM holds an address, the byte there differs from the described one. It tells no step that it heard.
#[derive(Drop)]
pub struct Patched {
    psu: Psu,
    at: u16,
    byte: u8,
}

impl Patched {
    ghost use Rattle.chip_fakes.specs.PatchedState.{blank_patched, patched_state, patched_queries};

    /// A blank 3851 whose patch is this byte at this address. It was put no question.
    pub fn psu(at: u16, byte: u8) -> Patched
        ensures state { patched_state result ≡ blank_patched at byte }
        ensures asked { patched_queries result ≡ 0 }
    {
        Patched {
            psu: Psu::blank(),
            at,
            byte,
        }
    }
}

/// The bytes of a ROM from `base` on with the one at an address changed, where it lies among them, or want of memory.
fn patched_rom(alloc: Global, base: u16, rom: &[u8], at: u16, byte: u8) -> Result<Bytes, Memory>
    requires size { length rom.now ≡ 1024 }
    requires boundary { base % 1024 ≡ 0 }
    ensures { IfOk result (λ bytes. bytes
        ≡ patched_bytes (Some (at, byte)) (psu_pages base) rom.now) }
{
    let mut bytes = match rom.to_vec(alloc) {
        Ok(bytes) => bytes,
        Err(_) => return Err(Memory),
    };
    let place = usize::from(at.wrapping_sub(base));
    if place < bytes.len() {
        bytes[place] = byte;
    }
    Ok(Bytes::from_vec(bytes))
}

impl Chip for Patched {
    ghost use Rattle.std.specs.Prelude.{◌≢◌, ◌↔◌, false, OnOk, OnErr, IsErrOf};
    ghost use Rattle.f8_spec.specs.ChipState.{IsWhole};
    ghost use Rattle.chip_face.specs.Fitting.{FitsAs, IsSpec, is_blank, kind_of};
    ghost use Rattle.chip_fakes.specs.PatchedState.{patched_state, patched_queries};

    ghost state = { patched_state };

    ghost queries = { patched_queries };

    fn kind(&self) -> ChipKind {
        self.psu.kind()
    }

    fn fit(&mut self, alloc: Global, spec: &ChipSpec) -> Result<(), FitFault>
        requires { IsSpec spec.now }
        ensures ok { OnOk result
            (FitsAs spec.now (patched_state self.old) (patched_state self.new)) }
        ensures whole { OnOk result (IsWhole (patched_state self.new).view) }
        ensures wrong_kind { IsErrOf result FitFault.WrongKind
            ↔ (kind_of spec.now ≢ (patched_state self.old).view.kind) }
        ensures memory { IsErrOf result FitFault.Memory → is_blank spec.now ≡ false }
        ensures err { OnErr result (patched_state self.new ≡ patched_state self.old) }
        ensures asked { patched_queries self.new ≡ patched_queries self.old }
    {
        match spec {
            ChipSpec::Psu {
                base,
                rom,
                ports,
                vector,
                wired,
            } => {
                match patched_rom(alloc, *base, rom.as_slice(), self.at, self.byte) {
                    Ok(rom) => {
                        let spec = ChipSpec::Psu {
                            base: *base,
                            rom,
                            ports: *ports,
                            vector: *vector,
                            wired: *wired,
                        };
                        self.psu.fit(alloc, &spec)
                    }
                    Err(Memory) => Err(FitFault::Memory),
                }
            }
            ChipSpec::Blank(_) | ChipSpec::Smi { .. } | ChipSpec::Pio { .. } => {
                self.psu.fit(alloc, spec)
            }
        }
    }

    fn power(&mut self, fill: u8, start: u16) {
        self.psu.power(fill, start);
    }

    fn offer(&mut self, romc: Romc, first: bool) -> Option<Offer> {
        self.psu.offer(romc, first)
    }

    fn settle(&mut self, romc: Romc, byte: u8, phi: u8, first: bool) {
        self.psu.settle(romc, byte, phi, first);
    }

    fn asks(&self) -> bool {
        self.psu.asks()
    }

    fn counters(&mut self) -> Counters {
        self.psu.counters()
    }

    fn peek(&mut self, at: u16) -> Option<u8> {
        self.psu.peek(at)
    }

    fn takes(&mut self, at: u16) -> bool {
        self.psu.takes(at)
    }

    fn latch(&mut self, port: u8) -> Option<u8> {
        self.psu.latch(port)
    }

    fn keys(&mut self, port: u8, byte: u8) {
        self.psu.keys(port, byte);
    }

    fn pulse(&mut self) {
        self.psu.pulse();
    }

    fn asked(&self) -> u64 {
        self.psu.asked()
    }
}
