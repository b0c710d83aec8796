// The words of a line, and what it wants.
use std::alloc::Global;
use std::process::Abort;
use std::test::Fail;

/// The first word of a line, and the hexadecimal numbers that the others spell.
pub(crate) fn spelled(alloc: Global, line: &str) -> Result<(&str, Vec<u16>), Fail> {
    match line.split_once(' ') {
        Some((first, rest)) => Ok((first, numbers(alloc, rest)?)),
        None => Ok((line, Vec::new(alloc))),
    }
}

fn numbers(alloc: Global, words: &str) -> Result<Vec<u16>, Fail> {
    let mut numbers = Vec::new(alloc);
    for word in words.split(' ') {
        let number = u16::from_str_radix(word, 16)?;
        numbers.push(number)?;
    }
    Ok(numbers)
}

/// What is told is what the line wants.
pub(crate) fn check(rt: &impl Abort, line: &str, told: &str, want: &str) {
    assert!(rt; told == want, "{line}");
}
