// Lists of numbers of registers.
ghost use Rattle.std.specs.Prelude.{◌<◌};
ghost use Rattle.std.specs.List.{All};

use arrayvec::ArrayVec;
use case_step::IsarSet;
use value_sets::is_among;

/// All numbers of registers.
pub fn every_number() -> IsarSet
    ensures { All (λ number. number < 64) result.items }
{
    let mut numbers = ArrayVec::new();
    for number in 0..64 {
        numbers.push(number);
    }
    numbers
}

/// The numbers of two lists.
pub fn joined_numbers(own: &[u8], more: &[u8]) -> IsarSet
    ensures { All (λ number. number < 64) result.items }
{
    let mut numbers = ArrayVec::new();
    for number in 0..64 {
        if is_among(own, number) || is_among(more, number) {
            numbers.push(number);
        }
    }
    numbers
}
