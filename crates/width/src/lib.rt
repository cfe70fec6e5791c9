// Width rules: how far above a bid an offer may be. Bids, offers and widths count ten-thousandths of a dollar.
#![tactic(auto)]

mod flat;
mod multiplied;
mod refusal;
mod rule;
mod table;

pub use flat::Flat;
pub use multiplied::Multiplied;
pub use refusal::Refusal;
pub use rule::{WIDEST, WidthRule, is_too_wide};
pub use table::Table;
