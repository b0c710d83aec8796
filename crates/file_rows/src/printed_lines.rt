// Lines that no row of a command shows: a source that is too long, a row with a palette, and the pieces of a line.
use console_board::Screen;
use report::{Line, error_long, row_line};
use std::process::Abort;

fn tells(rt: &impl Abort, line: &Line, text: &str) {
    assert!(rt; line.as_bytes() == text.as_bytes());
}

#[test]
fn long_source(rt: HostRuntime) {
    tells(&rt, &error_long("source", Some(3)), "error long source 3\n");
}

// Pixels 125 and 127 of row 63 have colour 3, so that its palette is 1.
#[test]
fn rows(rt: HostRuntime) {
    let mut screen = Screen::dark();
    for (port, byte) in [(4, 0x80), (0, 0x20), (0, 0x00), (4, 0x82), (0, 0x20)] {
        screen.port(port, byte);
    }
    tells(
        &rt,
        &row_line(&screen, 63),
        "1 00000000000000000000000000000000000000000000000000000000000000000000000000000000000000000000000000000000000000000000000000000303\n",
    );
}

#[test]
fn pieces_of_lines(rt: HostRuntime) {
    let mut line = Line::new();
    line.byte(b'x');
    line.text(b" = ");
    line.hex2(0x0A);
    line.hex4(0x2B90);
    line.octal2(0o57);
    line.small(255);
    line.byte(b' ');
    line.decimal(18_446_744_073_709_551_615);
    line.byte(b' ');
    line.signed(-2_147_483_648);
    tells(
        &rt,
        &line,
        "x = 0A2B9057255 18446744073709551615 -2147483648",
    );
    assert!(rt; line.as_bytes().len() == 48);
}
