// The feed's messages: their layouts, and how one message is read and written.
#![tactic(auto)]

mod decode;
mod encode;
mod fault;
mod layout;
mod message;

pub use decode::{Found, byte_at, count_of, is_letter, is_symbol, message_at};
pub use encode::{Encode, NoRoom, put};
pub use fault::{Fault, Layer, Reason};
pub use message::{Message, Summary, Update};
