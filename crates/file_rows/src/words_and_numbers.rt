// Words and the numbers that they spell.
use line_words::{address_of, byte_of, first_word, is_skipped, number_of, only_word};

#[test]
fn words_of_a_line(rt: HostRuntime) {
    let (word, rest) = first_word(b"mem 28F0".as_slice());
    assert!(rt; word == b"mem".as_slice());
    assert!(rt; rest == Some(b"28F0".as_slice()));
    for (line, word) in [
        (b"28F0".as_slice(), Some(b"28F0".as_slice())),
        (b"28F0 4", None),
    ] {
        assert!(rt; only_word(line) == word);
    }
    for (line, skipped) in [
        (b" \t".as_slice(), true),
        (b"# mem", true),
        (b" # mem", false),
    ] {
        assert!(rt; is_skipped(line) == skipped);
    }
}

#[test]
fn spelled_numbers(rt: HostRuntime) {
    for (word, byte, address, number) in [
        (b"fF".as_slice(), Some(0xFF), None, None),
        (b"28F0", None, Some(0x28F0), None),
        (b"028F0", None, None, None),
        (b"1000000", None, None, Some(1_000_000)),
        (b"+1", None, None, None),
    ] {
        assert!(rt; byte_of(word) == byte);
        assert!(rt; address_of(word) == address);
        assert!(rt; number_of(word) == number);
    }
}
