// The bytes of the tracked registers, by which points are told apart.
ghost use Rattle.std.specs.Prelude.{◌≡◌, ◌<◌, All};
ghost use Rattle.abs_step.specs.Successors.{tracked_byte, tracked_bytes};

use super::registers::Registers;
use abs_domain::MOST_TRACKED;
use cart_data::Split;

/// What is known of the tracked registers, in their order, and nothing past the last.
pub fn tracked_bytes(split: &Split, registers: &Registers) -> [Option<u8>; MOST_TRACKED]
    ensures { result ≡ tracked_bytes split.now registers.now }
{
    let mut bytes = [None; MOST_TRACKED];
    for place in 0..MOST_TRACKED {
        bytes[place] = tracked_byte(split.as_slice(), place, registers);
    }
    bytes
}

/// What is known of the tracked register in a place, and nothing past the last.
fn tracked_byte(tracked: &[u8], place: usize, registers: &Registers) -> Option<u8>
    requires { All (λ number. number < 64) tracked.now }
    ensures { result ≡ tracked_byte tracked.now registers.now place }
{
    match tracked.get(place) {
        Some(number) => registers.register(*number),
        None => None,
    }
}
