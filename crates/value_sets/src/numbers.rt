// Lists of bytes, or of other numbers up to 255.
ghost use Rattle.std.specs.Bool.{OnTrue};
ghost use Rattle.std.specs.List.{All};
ghost use Rattle.std.specs.Prelude.{◌≡◌, ◌<◌, ◌≤◌, length, nat_le, option_map, slice_index, take};
ghost use Rattle.value_sets.specs.ValueSets.{listed_union, with_number};
ghost use Rattle.value_sets.specs.ValueSets.{are_among as spelled_all, is_among as spelled_one, only as spelled_only};

use arrayvec::ArrayVec;

/// Whether a number is in a list.
#[inline]
pub fn is_among(numbers: &[u8], number: u8) -> bool
    ensures { result ≡ spelled_one numbers.now number }
{
    numbers.iter().any(|other| *other == number)
}

/// Whether each number of the lower list is in the upper one.
#[inline]
pub fn are_among(upper: &[u8], lower: &[u8]) -> bool
    ensures { result ≡ spelled_all upper.now lower.now }
{
    lower.iter().all(|number| is_among(upper, *number))
}

/// The number of a list of one.
#[inline]
pub fn only(numbers: &[u8]) -> Option<u8>
    ensures { result ≡ spelled_only numbers.now }
{
    match numbers {
        [number] => Some(*number),
        _ => None,
    }
}

/// The place of the first number of a list that is no smaller than this one, or the list's end.
fn place_of(numbers: &[u8], number: u8) -> usize
    ensures within { result ≤ length numbers.now }
    ensures before { All (λ own. own < number) (take result numbers.now) }
    ensures first { result < length numbers.now → number ≤ slice_index numbers.now result }
{
    numbers
        .iter()
        .position(|own| *own >= number)
        .unwrap_or(numbers.len())
}

/// Adds a number to a list that ascends, unless it is there, and tells whether there was room for it. Where there wasn't the list stays.
fn add_number<const N: usize>(numbers: &mut ArrayVec<u8, N>, number: u8) -> bool
    ensures room { result ≡ nat_le (length (with_number numbers.old.items number)) N }
    ensures added { OnTrue result (numbers.new.items ≡ with_number numbers.old.items number) }
{
    let listed = numbers.as_slice();
    let place = place_of(listed, number);
    if listed.get(place) == Some(&number) {
        return true;
    }
    numbers.try_insert(place, number).is_ok()
}

/// A list that ascends with the numbers of another one, or none where these are more than fit.
pub fn union_of<const N: usize>(
    mut numbers: ArrayVec<u8, N>,
    more: &[u8],
) -> Option<ArrayVec<u8, N>>
    ensures { option_map (λ numbers. numbers.items) result
        ≡ listed_union N numbers.entry.items more.now }
{
    for number in more {
        if !add_number(&mut numbers, *number) {
            return None;
        }
    }
    prove!(numbers.len() <= N);
    Some(numbers)
}
