// Away prices: an exchange and its price.
ghost use Rattle.away.specs.Away.{better};
ghost use Rattle.std.proofs.Common.{rules};

use ranked::Rank;

// An exchange's price; HIGHER says whether the higher price is the better one.
#[derive(Clone, Copy)]
pub struct AwayPrice<const HIGHER: bool> {
    // A to Z on a board; any byte may be lent or asked for, and another is refused
    pub exchange: u8,
    pub price: u64,
}

// Of bids the higher is better.
pub type AwayBid = AwayPrice<true>;

// Of offers the lower is better.
pub type AwayOffer = AwayPrice<false>;

impl<const HIGHER: bool> Rank for AwayPrice<HIGHER> {
    ghost better = { better HIGHER };

    ghost apart = { Prim.search rules };

    ghost carries = { Prim.search rules };

    ghost levels = { Prim.search rules };

    fn beats(&self, other: &AwayPrice<HIGHER>) -> bool {
        if HIGHER {
            other.price < self.price
        } else {
            self.price < other.price
        }
    }
}
