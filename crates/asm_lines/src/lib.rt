//! What the program prints of assembled and disassembled F8 code (this project's own): the lines of an image, and those of a text, each
//! put into a sink by itself. No call takes memory.
#![tactic(auto)]

mod image_out;
mod listing_out;

pub use image_out::{put_image, put_linked};
pub use listing_out::put_listing;
