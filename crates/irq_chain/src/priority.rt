// The choice among the chips that ask.
ghost use Rattle.std.specs.Prelude.{◌≡◌, ◌≤◌, ◌<◌, true, None, Some, IfSome, if◌then◌else◌, length, position};
ghost use Rattle.std.specs.Prelude.{slice_get};

/// The least index of the chips that ask, along a chain in which the first comes first; `None` exactly where the processor's interrupt
/// control bit `icb` is clear or no chip asks (Mostek 3851 data sheet; what clears and sets the bit is the Fairchild F8 User's Guide's).
/// The index is a byte, so the chain has at most 256 entries.
pub fn first_asking(asks: &[bool], icb: bool) -> Option<u8>
    requires { length asks.now ≤ 256 }
    ensures first { result ≡ (if icb then position (λ asking. asking) asks.now else None) }
    ensures asking { IfSome result (λ index. slice_get asks.now index ≡ Some true) }
{
    if !icb {
        return None;
    }
    match index_of_true(asks) {
        Some(index) => Some(index as u8),
        None => None,
    }
}

/// The least index at which there is a `true`.
fn index_of_true(asks: &[bool]) -> Option<usize>
    ensures first { result ≡ position (λ asking. asking) asks.now }
    ensures asking { IfSome result (λ index. slice_get asks.now index ≡ Some true) }
    ensures within { IfSome result (λ index. index < length asks.now) }
{
    asks.iter().position(|asking| *asking)
}
