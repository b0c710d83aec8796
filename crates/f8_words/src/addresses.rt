// Sums of addresses.
ghost use Rattle.std.specs.Prelude.{◌≡◌};
ghost use Rattle.f8_spec.specs.Words.{wrapped};

/// The address `by` places from `at`, modulo 65,536.
pub fn wrap_add(at: u16, by: i8) -> u16
    ensures { result ≡ wrapped at by }
{
    at.wrapping_add_signed(i16::from(by))
}
