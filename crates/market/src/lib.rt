// Outside markets: what other exchanges bid and offer, behind one interface.
#![tactic(auto)]

mod cut_off;
mod live;
mod market;
mod nothing;
mod price;
mod refusal;
mod tighter;

pub use cut_off::CutOff;
pub use live::LivePair;
pub use market::{OutsideMarket, Prices};
pub use nothing::NoMarket;
pub use price::is_price;
pub use refusal::Refusal;
pub use tighter::{Tighter, composite};
