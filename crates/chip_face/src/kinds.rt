// Kinds of chip.
ghost use Rattle.std.specs.Prelude.{◌≡◌};
ghost use Rattle.f8_spec.specs.ChipState.{same_kind};

use f8_spec::ChipKind;

/// Two chips are of one kind.
#[inline]
pub fn same_kind(first: ChipKind, second: ChipKind) -> bool
    ensures { result ≡ same_kind first second }
{
    match first {
        ChipKind::Psu => matches!(second, ChipKind::Psu),
        ChipKind::Smi => matches!(second, ChipKind::Smi),
        ChipKind::Pio => matches!(second, ChipKind::Pio),
    }
}
