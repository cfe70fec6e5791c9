// A list in the order of rank, over places that its owner lends.
#![tactic(auto)]

mod list;
mod rank;
mod refusal;

pub use list::{MOST_ENTRIES, RankedList};
pub use rank::{Fill, Rank};
pub use refusal::Refusal;
