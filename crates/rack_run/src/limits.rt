// The most instructions that a run can have.
ghost use Rattle.std.specs.Prelude.{◌≡◌};
ghost use Rattle.console_spec.specs.Scripts.{most_instructions as most_of};
ghost use Rattle.pad_script.specs.Limits.{HasLimits};

use console_board::FRAME_CLOCKS;
use console_spec::End;

/// More instructions than a run can have: each takes 4 clocks at least.
pub(crate) fn most_instructions(end: End) -> u32
    requires { HasLimits end }
    ensures { result ≡ most_of end }
{
    match end {
        End::Frames(frames) => frames * FRAME_CLOCKS as u32,
        End::Steps(count) => count,
    }
}
