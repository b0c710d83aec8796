// The five bits of a status word.
ghost use Rattle.std.specs.Prelude.{◌≡◌};
ghost use Rattle.abs_domain.specs.Joins.{joined_status, is_status_below};
ghost use Rattle.abs_domain.specs.StateView.{status_of};

use super::values::Bit;

/// The status word of a join.
pub(crate) fn status_join(first: &[Bit; 5], second: &[Bit; 5]) -> [Bit; 5]
    ensures { status_of result ≡ joined_status (status_of first.now) (status_of second.now) }
{
    [
        first[0].join(second[0]),
        first[1].join(second[1]),
        first[2].join(second[2]),
        first[3].join(second[3]),
        first[4].join(second[4]),
    ]
}

/// Whether the upper status word says no more.
pub(crate) fn status_below(lower: &[Bit; 5], upper: &[Bit; 5]) -> bool
    ensures { result ≡ is_status_below (status_of lower.now) (status_of upper.now) }
{
    lower[0].below(upper[0])
        && lower[1].below(upper[1])
        && lower[2].below(upper[2])
        && lower[3].below(upper[3])
        && lower[4].below(upper[4])
}
