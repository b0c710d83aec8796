// The first line of a text.
ghost use Rattle.std.specs.Prelude.{◌≡◌, ◌<◌, ◌≤◌, ◌∷◌, length};
ghost use Rattle.text_lines.specs.Lines.{lines, without_return};

/// A line without the carriage return at its end.
fn without_return(line: &[u8]) -> &[u8]
    ensures value { result.now ≡ without_return line.now }
    ensures within { length result.now ≤ length line.now }
{
    let Some((last, front)) = line.split_last() else {
        return line;
    };
    if *last == b'\r' { front } else { line }
}

/// The first line of a text that isn't empty, and what follows it. The line has neither its LF nor a CR right before that; a text
/// without an LF is a line as it stands.
pub fn first_line(text: &[u8]) -> (&[u8], &[u8])
    requires { 0 < length text.now }
    ensures split { lines text.now ≡ result.0.now ∷ lines result.1.now }
    ensures line { length result.0.now ≤ length text.now }
    ensures rest { length result.1.now < length text.now }
{
    for (at, byte) in text.iter().enumerate() {
        if *byte == b'\n' {
            return (without_return(&text[..at]), &text[at + 1..]);
        }
    }
    (text, &text[text.len()..])
}
