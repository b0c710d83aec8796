// Lines, printable characters and digits.
use text_lines::{all_printable, first_line, hex2};

#[test]
fn line_ends(rt: HostRuntime) {
    let mut rest = b"A\r\r\n\nB\r".as_slice();
    for wanted in [b"A\r".as_slice(), b"", b"B\r"] {
        assert!(rt; !rest.is_empty());
        let (line, behind) = first_line(rest);
        assert!(rt; line == wanted);
        rest = behind;
    }
    assert!(rt; rest.is_empty());
}

#[test]
fn printable_characters(rt: HostRuntime) {
    for (text, printable) in [
        (b" ~".as_slice(), true),
        (b"\x1F", false),
        (b"a\x7F", false),
    ] {
        assert!(rt; all_printable(text) == printable);
    }
}

#[test]
fn digits_of_a_byte(rt: HostRuntime) {
    assert!(rt; hex2(0x9A) == *b"9A");
    assert!(rt; hex2(0x0F) == *b"0F");
}
