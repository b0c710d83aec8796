//! Worked descriptions, digits, lines and words by their readers, stores and sinks, printed lines, and generated chips. This crate has tests
//! alone, so that the crates below aren't proved once more with them.
#![tactic(auto)]

#[cfg(test)]
mod descriptions;
#[cfg(test)]
mod generated_chips;
#[cfg(test)]
mod lines_and_characters;
#[cfg(test)]
mod named_files;
#[cfg(test)]
mod printed_lines;
#[cfg(test)]
mod stores_and_sinks;
#[cfg(test)]
mod texts_of_digits;
#[cfg(test)]
mod words_and_numbers;
