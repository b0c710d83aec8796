//! The console's board, between the processor's output ports and what a player sees: the screen that the ports draw, and the frames.
#![tactic(auto)]

mod video_board;

pub use console_spec::PortWrite;
pub use video::Screen;
pub use video_board::{Board, FRAME_CLOCKS};
