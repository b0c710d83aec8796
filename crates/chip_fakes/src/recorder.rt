// The steps that a chip heard, up to a room.
ghost use Rattle.std.specs.Prelude.{◌≡◌, IfOk, Some, []};

use chip_face::Memory;
use romc_table::Romc;
use std::alloc::Global;
use std::marker::Model;

/// A bus step as a chip hears it: its code, its byte, its clocks, and the mark of the chip whose interrupt is acknowledged.
#[derive(Clone, Copy, Debug, PartialEq, Eq)]
pub struct Heard {
    pub romc: Romc,
    pub byte: u8,
    pub phi: u8,
    pub first: bool,
}

/// The steps that a chip heard, as long as there is room for all of them.
#[derive(Drop)]
pub struct Recorder {
    steps: Vec<Heard>,
    room: usize,

    /// There was room for every step.
    tells: bool,
}

impl Model for Recorder {
    ghost use Rattle.chip_fakes.specs.Recording.{Recording};

    ghost Value = { Recording };

    ghost use Rattle.chip_fakes.specs.RecorderView.{recording, HasRoom};

    ghost view = { recording };

    ghost invariant = { HasRoom };
}

impl Recorder {
    ghost use Rattle.chip_fakes.specs.Recording.{emptied, recorded};
    ghost use Rattle.chip_fakes.specs.RecorderView.{heard_step};

    /// Nothing heard yet, with room for some steps, or want of memory: the room is taken here.
    pub fn with_room(alloc: Global, room: u32) -> Result<Recorder, Memory>
        ensures { IfOk result (λ recorder. recorder ≡ record { room = room; steps = Some [] }) }
    {
        let room = room as usize;
        match Vec::with_capacity(alloc, room) {
            Ok(steps) => Ok(Recorder {
                steps,
                room,
                tells: true,
            }),
            Err(_) => Err(Memory),
        }
    }

    /// Tells one more step, and from the first for which there is no room on it no longer tells.
    pub fn hear(&mut self, step: Heard)
        ensures { self.new ≡ recorded (heard_step step) self.old }
    {
        if self.steps.len() < self.room {
            let _ = self.steps.push(step);
        } else {
            self.tells = false;
        }
    }

    /// Forgets the steps.
    pub fn forget(&mut self)
        ensures { self.new ≡ emptied self.old }
    {
        self.steps.clear();
    }
}
