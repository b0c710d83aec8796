//! The screen of a Channel F style console, as it is seen from the ports that write it.
#![tactic(auto)]

mod pixel_row;
mod video_memory;

pub use video_memory::Screen;
