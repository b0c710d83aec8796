// The board: its screen, and the count of frames.
use super::PortWrite;
use std::marker::Model;
use video::Screen;

/// The clocks of a frame, in Φ. The number is this project's own, after the Fairchild Channel F.
pub const FRAME_CLOCKS: u64 = 29_830;

/// The screen that the ports draw, and the count of frames. Contracts see a `BoardState`.
#[derive(Drop)]
pub struct Board {
    screen: Screen,

    /// The clocks at the last call of `frame_due`, in Φ, by which contracts say what the next call tells.
    phi: u64,

    /// How many frames have fallen by then.
    frames: u32,

    /// The clocks at which the next frame falls, in Φ.
    next_frame: u64,
}

impl Model for Board {
    ghost use Rattle.console_board.specs.BoardState.{BoardState, CountsFrames};

    ghost Value = { BoardState };

    ghost view = { λ b. record { screen = b.screen; phi = b.phi } };

    ghost invariant = { λ b. CountsFrames b.phi b.frames b.next_frame };
}

impl Board {
    ghost use Rattle.std.specs.Prelude.{ℕ, ◌≡◌, ◌↔◌, ◌==◌, ◌+◌, ◌*◌, ◌^◌, ◌<◌, ◌≤◌, if◌then◌else◌, List, [], ◌∷◌};
    ghost use Rattle.console_spec.specs.Scripts.{frame_clocks, frames_by};
    ghost use Rattle.console_spec.specs.declared.PortWrite.{PortWrite};
    ghost use Rattle.video.specs.ScreenState.{screen_after, after_write};
    ghost use Rattle.console_board.specs.BoardState.{BoardState};

    /// The board at power-on: nothing was written, and no clocks have gone by.
    pub fn new() -> Board
        ensures { result ≡ record { screen = screen_after []; phi = 0 } }
    {
        Board {
            screen: Screen::dark(),
            phi: 0,
            frames: 0,
            next_frame: FRAME_CLOCKS,
        }
    }

    /// Takes a write to a port, which may draw a pixel. When it came doesn't matter.
    pub fn write(&mut self, write: PortWrite)
        ensures next { self.new ≡ record self.old {
          screen = after_write write.port write.byte
              self.old.screen;
        } }
        ensures display { (ws : List PortWrite) → self.old.screen ≡ screen_after ws
            → self.new.screen ≡ screen_after (write ∷ ws) }
    {
        self.screen.port(write.port, write.byte);
    }

    /// What is shown.
    pub fn screen(&self) -> &Screen
        ensures { result.now ≡ self.now.screen }
    {
        &self.screen
    }

    /// The number of the frame that falls at `phi` or has fallen since the call before, if one has; the first call counts from 0. `phi` is
    /// the clocks so far, in Φ, at most a frame's more than at the call before and below 2^46. Frame `n` falls where `n` times the clocks of
    /// a frame are reached, so that no call misses one.
    pub fn frame_due(&mut self, phi: u64) -> Option<u32>
        requires onward { self.old.phi ≤ phi }
        requires near { phi ≤ self.old.phi + frame_clocks }
        requires bounded { phi < 2 ^ 46 }
        ensures frame { result ≡ (if frames_by phi == frames_by self.old.phi then None else Some
            (frames_by phi)) }
        ensures first { (frame : ℕ) → (result ≡ Some frame)
            ↔ ((self.old.phi < frame * frame_clocks) × (frame * frame_clocks ≤ phi)) }
        ensures clocks { self.new ≡ record self.old { phi = phi } }
    {
        self.phi = phi;
        if phi < self.next_frame {
            return None;
        }
        self.frames += 1;
        self.next_frame += FRAME_CLOCKS;
        Some(self.frames)
    }
}
