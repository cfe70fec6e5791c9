// What a board is asked and told.
ghost use Rattle.std.specs.Prelude.{◌≡◌, ℕ, min, [], length, if◌then◌else◌, Some, None, nat_eq};
ghost use Rattle.std.specs.Result.{result_err};
ghost use Rattle.ranked.specs.View.{entries};
ghost use Rattle.away.specs.Away.{better_bid, better_offer};
ghost use Rattle.away.specs.Board.{without, posted, clear_refusal, best_of};
ghost use Rattle.away.specs.Fits.{fit_board};
ghost use Rattle.market.specs.Refusals.{unless};
ghost use Rattle.away.specs.View.{bids_of, offers_of, bid_room, offer_room, bid_refusal, offer_refusal, bid_price, offer_price};

use super::AwayBoard;
use crate::prices::{AwayBid, AwayOffer, AwayPrice};
use crate::quotes::PriceList;
use market::{OutsideMarket, Prices, Refusal};

// Two calls a side, since with one each caller would pass the side. What they do is written once, in `PriceList`.
impl<'a> AwayBoard<'a> {
    // A board without a price, over lent places.
    pub fn new(bids: &'a mut [AwayBid], offers: &'a mut [AwayOffer]) -> AwayBoard<'a>
        ensures bids { bids_of result ≡ [] }
        ensures offers { offers_of result ≡ [] }
        ensures rooms { (bid_room result ≡ min 512 (length bids.old)) × (offer_room result ≡ min 512 (length offers.old)) }
    {
        AwayBoard {
            bids: PriceList::new(bids),
            offers: PriceList::new(offers),
        }
    }

    // The bids, the best first.
    pub fn bids(&self) -> &[AwayBid]
        ensures { result.now ≡ bids_of self.now }
    {
        self.bids.entries()
    }

    // The offers, the best first.
    pub fn offers(&self) -> &[AwayOffer]
        ensures { result.now ≡ offers_of self.now }
    {
        self.offers.entries()
    }

    // An exchange's new bid replaces its former one; refused, and nothing is changed, where there is no place for it or it is unfit.
    pub fn set_bid(&mut self, exchange: u8, price: u64) -> Result<(), Refusal>
        ensures answer { result_err result ≡ bid_refusal self.old exchange price }
        ensures bids { bids_of self.new ≡ unless (bid_refusal self.old exchange price) (posted better_bid (λ x. x.exchange) exchange (record { exchange = exchange; price = price }) (bids_of self.old)) (bids_of self.old) }
        ensures offers { offers_of self.new ≡ offers_of self.old }
        ensures only_this_exchange_moves { (e : ℕ) → bid_price e self.new ≡ unless (bid_refusal self.old exchange price) (if nat_eq exchange e then Some price else bid_price e self.old) (bid_price e self.old) }
        ensures bid_room { bid_room self.new ≡ bid_room self.old }
        ensures offer_room { offer_room self.new ≡ offer_room self.old }
    {
        self.bids.post(AwayPrice { exchange, price })
    }

    // An exchange's new offer replaces its former one; refused, and nothing is changed, where there is no place for it or it is unfit.
    pub fn set_offer(&mut self, exchange: u8, price: u64) -> Result<(), Refusal>
        ensures answer { result_err result ≡ offer_refusal self.old exchange price }
        ensures offers { offers_of self.new ≡ unless (offer_refusal self.old exchange price) (posted better_offer (λ x. x.exchange) exchange (record { exchange = exchange; price = price }) (offers_of self.old)) (offers_of self.old) }
        ensures bids { bids_of self.new ≡ bids_of self.old }
        ensures only_this_exchange_moves { (e : ℕ) → offer_price e self.new ≡ unless (offer_refusal self.old exchange price) (if nat_eq exchange e then Some price else offer_price e self.old) (offer_price e self.old) }
        ensures bid_room { bid_room self.new ≡ bid_room self.old }
        ensures offer_room { offer_room self.new ≡ offer_room self.old }
    {
        self.offers.post(AwayPrice { exchange, price })
    }

    // Clears an exchange's bid, present or not; refused where its letter is unfit.
    pub fn clear_bid(&mut self, exchange: u8) -> Result<(), Refusal>
        ensures answer { result_err result ≡ clear_refusal exchange }
        ensures bids { bids_of self.new ≡ unless (clear_refusal exchange) (without (λ x. x.exchange) exchange (bids_of self.old)) (bids_of self.old) }
        ensures offers { offers_of self.new ≡ offers_of self.old }
        ensures only_this_exchange_moves { (e : ℕ) → bid_price e self.new ≡ unless (clear_refusal exchange) (if nat_eq exchange e then None else bid_price e self.old) (bid_price e self.old) }
        ensures bid_room { bid_room self.new ≡ bid_room self.old }
        ensures offer_room { offer_room self.new ≡ offer_room self.old }
    {
        self.bids.clear(exchange)
    }

    // Clears an exchange's offer, present or not; refused where its letter is unfit.
    pub fn clear_offer(&mut self, exchange: u8) -> Result<(), Refusal>
        ensures answer { result_err result ≡ clear_refusal exchange }
        ensures offers { offers_of self.new ≡ unless (clear_refusal exchange) (without (λ x. x.exchange) exchange (offers_of self.old)) (offers_of self.old) }
        ensures bids { bids_of self.new ≡ bids_of self.old }
        ensures only_this_exchange_moves { (e : ℕ) → offer_price e self.new ≡ unless (clear_refusal exchange) (if nat_eq exchange e then None else offer_price e self.old) (offer_price e self.old) }
        ensures bid_room { bid_room self.new ≡ bid_room self.old }
        ensures offer_room { offer_room self.new ≡ offer_room self.old }
    {
        self.offers.clear(exchange)
    }
}

// The market of a board is the best of its bids and of its offers.
impl<'a> OutsideMarket for AwayBoard<'a> {
    ghost means = { λ b. best_of (bids_of b) (offers_of b) };

    ghost fit = { λ b. fit_board (bids_of b) (offers_of b) b.bids.fit b.offers.fit };

    fn ask(&self) -> Prices {
        (self.bids.best_price(), self.offers.best_price())
    }
}
