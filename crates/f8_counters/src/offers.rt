// What a chip offers in a bus step: a byte, and the address at which the chip stands.
ghost use Rattle.std.specs.Prelude.{◌≡◌, Some, None, if◌then◌else◌};
ghost use Rattle.f8_spec.specs.ChipState.{byte_offer, counter_byte as told_byte};

use super::words::{high_byte, low_byte};
use f8_spec::Offer;
use romc_table::Romc;

/// The offer of a byte at an address.
#[inline]
pub fn offered(byte: u8, at: u16) -> Option<Offer>
    ensures { result ≡ Some (byte_offer at byte) }
{
    Some(Offer { byte, at })
}

/// The offer of a byte at an address where the chip has a part in the step, and `None` where it has none.
#[inline]
pub fn offered_if(has_part: bool, byte: u8, at: u16) -> Option<Offer>
    ensures { result ≡ (if has_part then Some (byte_offer at byte) else None) }
{
    if has_part { offered(byte, at) } else { None }
}

/// The byte of a counter that a step with this code tells (Mostek 3851 and 3853 data sheets, ROMC states).
#[inline]
pub fn counter_byte(romc: Romc, at: u16) -> u8
    ensures { result ≡ told_byte romc at }
{
    match romc {
        Romc::TELL_DATA_HIGH | Romc::TELL_STACK_HIGH | Romc::TELL_PROGRAM_HIGH => high_byte(at),
        _ => low_byte(at),
    }
}
