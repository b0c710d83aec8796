// The register that a part of an instruction is.
ghost use Rattle.std.specs.Prelude.{◌≡◌};
ghost use Rattle.abs_domain.specs.StateView.{state_of};
ghost use Rattle.case_step.specs.Cases.{pointed_register as spelled_pointed, register_in as spelled_register};

use super::part::Part;
use abs_domain::Abs;

/// The register that ISAR points to, where it is known.
pub fn pointed_register(case: &Abs) -> Option<u8>
    ensures { result ≡ spelled_pointed (state_of case.now) }
{
    Some(case.hi.known()? * 8 + case.lo.known()?)
}

/// The register that a part is, by what is known of ISAR.
pub fn register_in(part: Part, case: &Abs) -> Option<u8>
    ensures { result ≡ spelled_register part (state_of case.now) }
{
    match part {
        Part::Register(number) => Some(number),
        Part::Pointed => pointed_register(case),
        _ => None,
    }
}
