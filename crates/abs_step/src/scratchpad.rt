// The registers of the scratchpad after a write.
ghost use Rattle.std.specs.Prelude.{◌≡◌, map};
ghost use Rattle.abs_domain.specs.KnownParts.{known_byte};
ghost use Rattle.abs_step.specs.RegisterWrites.{written_from};
ghost use Rattle.abs_step.specs.WorkView.{write_view};

use super::writes::Write;
use abs_domain::{SCRATCHPAD_SIZE, Val};

/// The scratchpad after a write.
pub fn scratchpad_after(write: Write, scratchpad: &[Val; SCRATCHPAD_SIZE]) -> [Val; SCRATCHPAD_SIZE]
    ensures { map known_byte result
        ≡ written_from 0 (write_view write) (map known_byte scratchpad.now) }
{
    let mut after = [Val::Any; SCRATCHPAD_SIZE];
    for number in 0..SCRATCHPAD_SIZE {
        after[number] = write.value_after(number as u8, scratchpad[number]);
    }
    after
}
