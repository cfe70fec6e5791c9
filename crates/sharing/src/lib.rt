// Sharing rules: how a number of contracts is shared out among claims.
#![tactic(auto)]

mod arrival;
mod claim;
mod pro_rata;
mod refusal;
mod rule;
mod samples;

pub use arrival::Arrival;
pub use claim::{Claim, MAX_CLAIMS, MAX_SIZE, fit_to_share};
pub use pro_rata::ProRata;
pub use refusal::Refusal;
pub use rule::SharingRule;
pub use samples::ten_over_three_sevens;
