// What a run keeps beside its player: the screen and the counts.
use console_board::{Board, PortWrite, Screen};
use console_spec::End;
use std::marker::Model;

/// What a run keeps beside its machine: the board, and what was counted so far. Contracts see a `ProgressState`.
#[derive(Drop)]
pub(crate) struct Progress {
    board: Board,

    /// The frames that have fallen.
    frames: u32,

    /// The instructions that were done.
    count: u32,

    /// The writes that ports took.
    writes: u32,

    /// The sum of their bytes.
    bytes: u64,
}

impl Model for Progress {
    ghost use Rattle.std.specs.Prelude.{◌≡◌, ◌≤◌, ◌*◌};
    ghost use Rattle.console_spec.specs.Scripts.{frames_by};
    ghost use Rattle.rack_run.specs.Progressing.{ProgressState};

    ghost Value = { ProgressState };

    ghost view = { λ p. record {
      screen = p.board.screen;
      phi = p.board.phi;
      count = p.count;
      writes = p.writes;
      bytes = p.bytes;
    } };

    ghost invariant = { λ p.
        (p.frames ≡ frames_by p.board.phi) × (p.writes ≤ p.count) × (p.bytes ≤ 255 * p.writes) };
}

impl Progress {
    ghost use Rattle.std.specs.Prelude.{◌≡◌, ◌≤◌, ◌<◌, ◌+◌, ◌^◌, []};
    ghost use Rattle.console_spec.specs.Scripts.{frame_clocks};
    ghost use Rattle.video.specs.ScreenState.{screen_after, after_write};
    ghost use Rattle.rack_run.specs.Progressing.{ProgressState, progress_with, frame_at, ends_at};

    /// After reset, with its clocks in Φ: nothing was written, and no instruction was done.
    pub(crate) fn new(phi: u64) -> Progress
        requires { phi < frame_clocks }
        ensures { result
            ≡ record { screen = screen_after []; phi = phi; count = 0; writes = 0; bytes = 0 } }
    {
        let mut board = Board::new();
        board.frame_due(phi);
        Progress {
            board,
            frames: 0,
            count: 0,
            writes: 0,
            bytes: 0,
        }
    }

    /// A port takes a write, that of an instruction which is counted.
    // Not inlined, so that `step` is small without it.
    #[inline(never)]
    fn take(&mut self, write: PortWrite)
        requires { self.old.writes < self.old.count }
        ensures { self.new ≡ record self.old {
          screen = after_write write.port write.byte self.old.screen;
          writes = self.old.writes + 1;
          bytes = self.old.bytes + write.byte;
        } }
    {
        self.board.write(write);
        self.writes += 1;
        self.bytes += u64::from(write.byte);
    }

    /// An instruction is done, with its write and the clocks at its end, in Φ: the frame that falls there, if one does.
    // Each run has one call of it, at each of its instructions.
    #[inline(always)]
    pub(crate) fn step(&mut self, wrote: Option<PortWrite>, phi: u64) -> Option<u32>
        requires onward { self.old.phi ≤ phi }
        requires near { phi ≤ self.old.phi + frame_clocks }
        requires bounded { phi < 2 ^ 46 }
        requires few { self.old.count + 1 < 2 ^ 32 }
        ensures after { self.new ≡ progress_with wrote phi self.old }
        ensures frame { result ≡ frame_at self.old phi }
    {
        self.count += 1;
        if let Some(write) = wrote {
            self.take(write);
        }
        let fallen = self.board.frame_due(phi);
        if let Some(frame) = fallen {
            self.frames = frame;
        }
        fallen
    }

    /// The run ends here.
    pub(crate) fn is_over(&self, end: End) -> bool
        ensures { result ≡ ends_at end self.now }
    {
        match end {
            End::Frames(frames) => frames <= self.frames,
            End::Steps(count) => self.count == count,
        }
    }

    /// What is shown.
    pub(crate) fn screen(&self) -> &Screen
        ensures { result.now ≡ self.now.screen }
    {
        self.board.screen()
    }

    /// The instructions that were done.
    pub(crate) fn count(&self) -> u32
        ensures { result ≡ self.now.count }
    {
        self.count
    }

    /// The writes that ports took.
    pub(crate) fn writes(&self) -> u32
        ensures { result ≡ self.now.writes }
    {
        self.writes
    }

    /// The sum of the bytes that ports took.
    pub(crate) fn bytes(&self) -> u64
        ensures { result ≡ self.now.bytes }
    {
        self.bytes
    }
}
