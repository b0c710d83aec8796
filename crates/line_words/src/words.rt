// The words of a line, and lines that are skipped.
ghost use Rattle.std.specs.Prelude.{◌≡◌, ◌∷◌, [], bytes_eq, option_map, unwrap_or};
ghost use Rattle.line_words.specs.Words.{is_skipped as is_not_read, is_space, lone, words};
ghost use Rattle.std.specs.List.{list_all};

/// The first word of a text, and what follows the blank behind it.
pub fn first_word(text: &[u8]) -> (&[u8], Option<&[u8]>)
    ensures { words text.now ≡ result.0.now ∷
        unwrap_or (option_map (λ rest. words rest.now) result.1) [] }
{
    for (at, byte) in text.iter().enumerate() {
        if *byte == b' ' {
            return (&text[..at], Some(&text[at + 1..]));
        }
    }
    (text, None)
}

/// The word of a text that has no blank.
pub fn only_word(text: &[u8]) -> Option<&[u8]>
    ensures { option_map (λ word. word.now) result ≡ lone (words text.now) }
{
    match first_word(text) {
        (word, None) => Some(word),
        (_, Some(_)) => None,
    }
}

/// All bytes are blanks and tabs.
fn is_blank(line: &[u8]) -> bool
    ensures { result ≡ list_all is_space line.now }
{
    line.iter().all(|byte| *byte == b' ' || *byte == b'\t')
}

/// A blank line, or a comment: its first byte is `#`.
pub fn is_skipped(line: &[u8]) -> bool
    ensures { result ≡ is_not_read line.now }
{
    matches!(line, [b'#', ..]) || is_blank(line)
}

/// A text is a word.
pub fn is_word(text: &[u8], word: &[u8]) -> bool
    ensures { result ≡ bytes_eq text.now word.now }
{
    text == word
}
