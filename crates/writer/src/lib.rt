// Frames, written into a buffer that the caller lends. The buffer's own bytes say how far its frame is written.
#![tactic(auto)]

mod frames;
mod refusal;

pub use frames::{MAX_FRAME, add, frame, start};
pub use refusal::Refusal;
