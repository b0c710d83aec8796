// A port's place among a chip's four.
ghost use Rattle.std.specs.Prelude.{◌≡◌};
ghost use Rattle.f8_spec.specs.ChipState.{offset_from};

/// The place of a port among a chip's four, which begin at `first`, and `None` where it is not one of them.
#[inline]
pub fn port_offset(port: u8, first: u8) -> Option<u8>
    ensures { result ≡ offset_from port first }
{
    let offset = port.checked_sub(first)?;
    if offset < 4 { Some(offset) } else { None }
}
