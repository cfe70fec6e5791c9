// One line of a board, read.
#![tactic(auto)]

mod board;
mod fields;
mod problem;
mod words;

pub use board::{Entry, parse};
pub use problem::{Problem, Trouble};
