// Readable lines for a board: messages of the feed and faults of a frame.
#![tactic(auto)]

mod fault;
mod message;
mod word;

pub use fault::FaultLine;
pub use message::{MessageLine, SummaryLine, UnknownLine, UpdateLine};
pub use word::{Condition, Word};
