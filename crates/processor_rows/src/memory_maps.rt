// The map of a worked description.
use super::chips::two_chips;
use chip_face::ChipKind;
use memory_map::{Map, Sort};
use std::process::Abort;
use std::test::Fail;

/// What an address is, the byte that stays there, whose it is, and whether the 3851 and the 3853 hold it.
const ADDRESSES: [(u16, (Sort, Option<u8>, Option<u8>), [bool; 2]); 5] = [
    (0x02FF, (Sort::Rom, Some(0x2B), Some(0)), [true, false]),
    (0x0300, (Sort::Shared, None, None), [true, true]),
    (0x0400, (Sort::Nothing, None, None), [false, false]),
    (0x28FF, (Sort::Ram, None, Some(1)), [false, true]),
    (0x8000, (Sort::Void, Some(0xFF), Some(1)), [false, true]),
];

/// How many chips have a port as a data port, and how many have it at all: the two data ports of the 3851 at 04, its control and its
/// timer, the 3853's four ports, and ports that no chip has.
const PORTS: [(u8, [u8; 2]); 9] = [
    (0x00, [0, 0]),
    (0x04, [1, 1]),
    (0x05, [1, 1]),
    (0x06, [0, 1]),
    (0x07, [0, 1]),
    (0x08, [0, 0]),
    (0x0C, [0, 1]),
    (0x0F, [0, 1]),
    (0x10, [0, 0]),
];

/// Each address.
fn addresses(rt: &impl Abort, map: &Map) {
    for (at, is, by) in ADDRESSES {
        let told = (map.sort(at), map.byte(at), map.owner(at));
        let held = [map.held(at, ChipKind::Psu), map.held(at, ChipKind::Smi)];
        assert!(rt; told == is && held == by, "at {at}");
    }
}

/// Each port.
fn ports(rt: &impl Abort, map: &Map) {
    for (port, counts) in PORTS {
        assert!(rt; [map.reads(port), map.writes(port)] == counts, "of {port}");
    }
}

// a 3851 whose bytes are 2B, and a 3853: each address and port, what each kind holds, and what holds of all addresses and of both chips
#[test]
fn map_of_two_chips(rt: HostRuntime) -> Result<(), Fail> {
    let chips = two_chips(rt.alloc(), &[0x2B; 1024], false)?;
    let map = Map::of(rt.alloc(), &chips)?;
    addresses(&rt, &map);
    ports(&rt, &map);
    assert!(rt; map.any(ChipKind::Psu) && map.any(ChipKind::Smi));
    assert!(rt; map.overlaps() && !map.covered() && !map.wired());
    Ok(())
}
