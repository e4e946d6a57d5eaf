//! Frames: a fixed number of pages in memory, and parts of them that are lent to be written.
#![tactic(auto)]

mod block;
mod frames;
mod frames_mut;

pub use frames::{Frames, PAGE_BYTES, Page};
pub use frames_mut::FramesMut;
