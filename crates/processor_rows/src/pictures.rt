// A palette, the planes of rows, and a tone.
ghost use Rattle.std.specs.Prelude.{◌<◌};

use video::Screen;

// a screen that was given some writes, each a port and a byte
fn written(writes: &[(u8, u8)]) -> Screen {
    let mut screen = Screen::dark();
    for (port, byte) in writes {
        screen.port(*port, *byte);
    }
    screen
}

// both planes of a row
fn planes(screen: &Screen, y: u8) -> [u128; 2]
    requires { y < 64 }
{
    [screen.plane(y, 0), screen.plane(y, 1)]
}

// Bit 5 rises twice, and is written once more between: pixels 127 and 125 of row 63, of which the second tells the palette.
#[test]
fn draws_at_rises(rt: HostRuntime) {
    let screen = written(&[
        (0, 0x20),
        (4, 0x81),
        (0, 0x20),
        (0, 0x00),
        (4, 0x82),
        (0, 0x20),
    ]);
    assert!(rt; screen.palette(63) == 1);
    assert!(rt; planes(&screen, 63) == [1 << 127 | 1 << 125, 1 << 127 | 1 << 125]);
}

// Pixels 5 and 6 of row 8 get the colours 1 and 2, and then pixel 5 gets 2 as well.
#[test]
fn draws_over(rt: HostRuntime) {
    let mut screen = written(&[
        (1, 0x80),
        (4, 0xFA),
        (5, 0x37),
        (0, 0x20),
        (0, 0x00),
        (1, 0x40),
        (4, 0xF9),
        (0, 0x20),
    ]);
    assert!(rt; planes(&screen, 8) == [1 << 5, 1 << 6]);
    screen.port(0, 0x00);
    screen.port(4, 0xFA);
    screen.port(0, 0x20);
    assert!(rt; planes(&screen, 8) == [0, 1 << 5 | 1 << 6]);
}

#[test]
fn tone_of_port_5(rt: HostRuntime) {
    assert!(rt; written(&[(5, 0xC0)]).tone() == 3);
}
