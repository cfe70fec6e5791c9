// Away prices: what other exchanges bid and offer, and a board of them that is an outside market.
#![tactic(auto)]

mod board;
mod prices;
mod quotes;

pub use board::AwayBoard;
pub use prices::{AwayBid, AwayOffer, AwayPrice};
