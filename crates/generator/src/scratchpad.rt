// The sum of a scratchpad.
ghost use Rattle.std.specs.Prelude.{◌≡◌, sum};

use console_spec::SCRATCHPAD_SIZE;

/// The sum of the bytes of a scratchpad.
pub fn scratch_sum(scratch: &[u8; SCRATCHPAD_SIZE]) -> u32
    ensures { result ≡ sum scratch.now }
{
    scratch.iter().map(|byte| u32::from(*byte)).sum()
}
