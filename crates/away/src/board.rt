// A board of away prices: a list of bids and a list of offers, one price an exchange.
mod calls;

use crate::prices::{AwayBid, AwayOffer};
use crate::quotes::PriceList;

#[derive(Drop)]
pub struct AwayBoard<'a> {
    bids: PriceList<'a, AwayBid>,
    offers: PriceList<'a, AwayOffer>,
}
