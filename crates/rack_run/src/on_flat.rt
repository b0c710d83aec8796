// A run on the flat instruction set alone.
ghost use Rattle.std.specs.Prelude.{◌≤◌, IfOk, IfErr};
ghost use Rattle.console_spec.specs.Run.{power_position, chain_in_order, position_after_reset};
ghost use Rattle.f8_isa.specs.IsaState.{StandsAt};
ghost use Rattle.memory_map.specs.MapOf.{views_of};
ghost use Rattle.pad_script.specs.Limits.{HasLimits};
ghost use Rattle.pad_script.specs.Reading.{seen};
ghost use Rattle.rack_run.specs.Endings.{Refers, ReferFails};

use super::detail::Detail;
use super::ending::{Cut, Ending, Halt};
use super::events::happen_at;
use super::player::Player;
use super::progress::Progress;
use super::run::run;
use chip_face::{ChipList, Memory, Powers};
use console_board::PortWrite;
use console_spec::{Event, Regs};
use f8_isa::Isa;
use f8_machine::Rack;
use f8_ops::{RESET_PHI, Reserved};
use memory_map::Map;
use outside::{Sink, SinkFault};
use pad_script::Script;
use std::alloc::Global;
use thiserror::Error;

impl Player for Isa {
    ghost use Rattle.console_spec.specs.Telling.{on_flat};
    ghost use Rattle.f8_isa.specs.IsaState.{StandsAt};
    ghost use Rattle.rack_run.specs.Machines.{BeginsAt, flat_readout, flat_reads};

    ghost most_chips = { 0 };

    ghost way = { λ detail. on_flat };

    ghost begins = { λ isa states x. BeginsAt isa x };

    ghost at = { λ isa states x. StandsAt isa x.flat.state.count x };

    ghost readout = { λ isa. flat_readout isa };

    ghost ready = { λ isa. Unit {0} };

    ghost fits = { λ isa states. Unit {0} };

    ghost allowed = { λ chips isa codes. 0 };

    fn advance<K: Sink>(
        &mut self,
        _rack: &mut Rack,
        _sink: &mut K,
        _detail: Detail,
    ) -> Result<Option<PortWrite>, Cut> {
        let at = self.p();
        match self.step() {
            Ok(done) => Ok(done.wrote),
            Err(Reserved { code }) => Err(Cut::Halt(Halt::Reserved { at, code })),
        }
    }

    fn happen(&mut self, _rack: &mut Rack, event: Event) {
        match event {
            Event::Keys { port, byte } => self.keys(port, byte),
            Event::Pulse { chip } => self.pulse(chip),
        }
    }

    fn registers(&self) -> Regs {
        self.regs()
    }

    fn clocks(&self) -> u64 {
        self.phi()
    }

    ghost reads = { flat_reads };
}

/// The instruction set after power-on with a byte, as is said of each chip, and reset.
fn power_on(alloc: Global, chips: &ChipList, powers: &Powers, fill: u8) -> Result<Isa, Memory>
    ensures stands { let vs = views_of chips.now in IfOk result (λ isa. StandsAt isa 0
        (position_after_reset (power_position vs (chain_in_order vs) powers.now fill))) }
    ensures phi { IfOk result (λ isa. isa.phi ≤ RESET_PHI) }
{
    let map = Map::of(alloc, chips)?;
    Isa::new(alloc, &map, chips, powers, fill)
}

/// Why a run on the flat instruction set alone came to no end.
#[derive(Clone, Copy, Debug, PartialEq, Eq, Drop, Error)]
pub enum ReferFault {
    /// Memory is wanting, and nothing was put.
    #[error("memory is wanting")]
    Memory,
    /// The sink failed at a line.
    #[error("the output could not be written")]
    Sink,
}

/// The run of a description by a script on the flat instruction set alone, without a chip: power-on, reset, the events of frame 0, and
/// instructions. `powers` has what is said of the power-on of each chip, in the order of the description; where that ends before a chip,
/// nothing is said of it. What ports took and the shown frames are told as the run goes; each line is one put. All memory is taken before
/// the first one.
pub fn refer<K: Sink>(
    alloc: Global,
    sink: &mut K,
    chips: &ChipList,
    powers: &Powers,
    script: &Script,
) -> Result<Ending, ReferFault>
    requires limits { HasLimits script.now.end }
    ensures refers { IfOk result (λ ending.
        Refers (seen script.now) ending chips.now powers.now
        (K.output sink.old) (K.output sink.new)) }
    ensures failed { IfErr result (λ fault.
        ReferFails fault (seen script.now) chips.now powers.now
        (K.output sink.old) (K.output sink.new)) }
{
    let Ok(mut isa) = power_on(alloc, chips, powers, script.power) else {
        return Err(ReferFault::Memory);
    };
    let mut no_chips = Rack::new(alloc);
    happen_at(&mut isa, &mut no_chips, script.events.as_slice(), 0);
    let mut progress = Progress::new(isa.phi());
    match run(
        &mut isa,
        &mut no_chips,
        sink,
        &mut progress,
        script,
        Detail::Writes,
    ) {
        Ok(ending) => Ok(ending),
        Err(SinkFault) => Err(ReferFault::Sink),
    }
}
