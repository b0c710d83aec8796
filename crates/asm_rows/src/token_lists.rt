// Lines with their tokens.
use asm_text::{Token, TokenKind, tokens};
use std::alloc::Global;
use std::test::Fail;

/// Longer lines are not tried here.
const LIMIT: usize = 1_000;

/// Writes a token's columns and what it is.
fn write_token(text: &mut String, token: &Token) -> Result<(), Fail> {
    let column = token.column;
    let end = token.end;
    match &token.kind {
        TokenKind::Name(name) => {
            let name = name.as_str();
            write!(text, "{column}-{end} name {name}, ")?
        }
        TokenKind::Number(number) => write!(text, "{column}-{end} {number}, ")?,
        TokenKind::Mark(mark) => {
            let mark = char::from(*mark);
            write!(text, "{column}-{end} mark {mark}, ")?
        }
    }
    Ok(())
}

/// The answer for a line as text: its tokens, or the fault.
fn answer(alloc: Global, line: &str) -> Result<String, Fail> {
    if line.len() > LIMIT {
        return Ok(String::from_str(alloc, "too long")?);
    }
    let mut text = String::new(alloc);
    match tokens(alloc, line) {
        Ok(list) => {
            for token in list.as_slice() {
                write_token(&mut text, token)?;
            }
        }
        Err(fault) => write!(text, "{fault}")?,
    }
    Ok(text)
}

#[test]
fn lines_are_read(rt: HostRuntime) -> Result<(), Fail> {
    let rows = [
        ("", ""),
        ("LOOP: NOP", "1-5 name LOOP, 5-6 mark :, 7-10 name NOP, "),
        (
            " BT 1,$200 ; caf\u{e9}",
            "2-4 name BT, 5-6 1, 6-7 mark ,, 7-11 512, ",
        ),
        ("\t';'%101", "2-5 59, 5-9 5, "),
        ("X: EQU $100000000", "a number too wide at column 8"),
        ("caf\u{e9}", "no token at column 4"),
    ];
    for (line, want) in rows {
        let got = answer(rt.alloc(), line)?;
        assert!(rt; got.as_str() == want, "{line}");
    }
    Ok(())
}
