// Text of the programs' lines: words, numbers, bytes in hex, prices and symbols.
#![tactic(auto)]

mod hex;
mod number;
mod price;
mod symbol;
mod word;

pub use hex::{Hex, HexError, hex_digit, hex_reads_back, push_hex, push_word};
pub use number::whole;
pub use price::{Price, dollars, price_reads_back};
pub use symbol::{padded, symbol_reads_back, trimmed};
pub use word::{Words, first_word, uncommented};
