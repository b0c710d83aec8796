// Which addresses hold a byte.
ghost use Rattle.std.specs.Prelude.{◌≡◌, ◌≤◌, ◌+◌, length, IfOk};
ghost use Rattle.f8_asm.specs.Marks.{no_marks, marks_with, is_free};

use std::alloc::{AllocError, Global};

/// How many addresses there are.
const ADDRESSES: usize = 65_536;

/// No address is marked.
pub fn no_marks(alloc: Global) -> Result<Vec<bool>, AllocError>
    ensures value { IfOk result (λ marks. marks.items ≡ no_marks 65536) }
    ensures length { IfOk result (λ marks. length marks.items ≡ 65536) }
{
    let marks = vec![in alloc; false; ADDRESSES]?;
    Ok(marks)
}

/// Marks so many addresses from one on.
pub fn mark(marks: &mut [bool], at: usize, size: usize)
    requires { at + size ≤ length marks.old }
    ensures { marks.new ≡ marks_with marks.old at size }
{
    for k in 0..size {
        marks[at + k] = true;
    }
}

/// Whether none of so many addresses from one on is marked.
pub fn is_free(marks: &[bool], at: usize, size: usize) -> bool
    requires { at + size ≤ length marks.now }
    ensures { result ≡ is_free marks.now at size }
{
    for mark in &marks[at..at + size] {
        if *mark {
            return false;
        }
    }
    true
}
