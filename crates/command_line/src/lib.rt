//! The words of the program's command line, read into what they ask for (all of it this project's own): `play CART SCRIPT [--trace]`,
//! `debug CART COMMANDS`, `audit CART SCRIPT TRACE`, `ref CART SCRIPT`, `check CART [--cert]`, `verify CART CERT`,
//! `prove CART [--cases]`, `confirm CART CASES`, `migrate CART`, `asm FILE`, `link PLAN`, `dis FILE` and `gen N`.
//!
//! The first word is the command, and the rest is read by that command's own `clap` command, which has no help and no version. The
//! number of plain words has to be exact. After the first word `--` behind the command every word is plain; before it a word of two or
//! more bytes that begins with `-` is refused, but for the command's flag, `--trace` behind `play`, `--cert` behind `check` and `--cases`
//! behind `prove`, which may stand once, at any place. Plain are the word `-` and the empty one, too. N is a number of one to ten decimal
//! digits, of at most 4,294,967,295.
#![tactic(auto)]

mod asked;
mod files;
mod flagged;
mod parsers;
mod play;
mod read;
mod seed;

pub use asked::Command;
pub use f8_spec::Memory;
pub use read::read_words;
