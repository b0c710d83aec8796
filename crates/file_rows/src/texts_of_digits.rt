// Texts of hexadecimal digits and what is answered to them.
use hex_file::{HexAnswer, read_hex};
use std::test::Fail;

#[test]
fn blanks_anywhere(rt: HostRuntime) -> Result<(), Fail> {
    for (text, wanted) in [
        (
            b" 2A 28\t0\r\n0fF\r\n\nA\n5 ".as_slice(),
            [0x2A, 0x28, 0x00, 0xFF, 0xA5].as_slice(),
        ),
        (b" \t\r\n", &[]),
    ] {
        let bytes = read_hex(rt.alloc(), text)?;
        assert!(rt; bytes.as_slice() == wanted);
    }
    Ok(())
}

#[test]
fn texts_refused(rt: HostRuntime) {
    let texts = [
        b"2A2".as_slice(),
        b"2A 2G".as_slice(),
        b"2A,28".as_slice(),
        b"2A\x0C28".as_slice(),
        b"2A\xFF8".as_slice(),
        b"0x2A".as_slice(),
    ];
    for text in texts {
        assert!(rt; read_hex(rt.alloc(), text).err() == Some(HexAnswer::Digits));
    }
}

#[test]
fn printed(rt: HostRuntime) -> Result<(), Fail> {
    let texts = [
        (HexAnswer::Digits, "bad hexadecimal digits"),
        (HexAnswer::Long, "too many bytes"),
        (HexAnswer::Memory, "out of memory"),
    ];
    for (answer, wanted) in texts {
        let text = format!(in rt.alloc(); "{answer}")?;
        assert!(rt; text.as_str() == wanted);
    }
    Ok(())
}
