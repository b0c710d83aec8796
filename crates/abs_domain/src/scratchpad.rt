// The registers of the scratchpad.
ghost use Rattle.std.specs.Prelude.{◌≡◌, map};
ghost use Rattle.abs_domain.specs.Lattice.{is_each_below, common_each, same_number};
ghost use Rattle.abs_domain.specs.KnownParts.{known_byte};

use super::values::Val;

/// The number of registers in the scratchpad.
pub const SCRATCHPAD_SIZE: usize = 64;

/// The scratchpad of a join.
pub(crate) fn scratchpad_join(
    first: &[Val; SCRATCHPAD_SIZE],
    second: &[Val; SCRATCHPAD_SIZE],
) -> [Val; SCRATCHPAD_SIZE]
    ensures { map known_byte result
        ≡ common_each same_number (map known_byte first.now) (map known_byte second.now) }
{
    let mut joined = [Val::Any; SCRATCHPAD_SIZE];
    for number in 0..SCRATCHPAD_SIZE {
        joined[number] = first[number].join(second[number]);
    }
    joined
}

/// Whether the upper scratchpad says no more.
pub(crate) fn scratchpad_below(
    lower: &[Val; SCRATCHPAD_SIZE],
    upper: &[Val; SCRATCHPAD_SIZE],
) -> bool
    ensures { result
        ≡ is_each_below same_number (map known_byte lower.now) (map known_byte upper.now) }
{
    for number in 0..SCRATCHPAD_SIZE {
        if !lower[number].below(upper[number]) {
            return false;
        }
    }
    true
}
