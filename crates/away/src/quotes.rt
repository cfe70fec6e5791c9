// A ranked list of away prices, one an exchange.
ghost use Rattle.std.specs.Prelude.{◌≡◌, ℕ, true};
ghost use Rattle.ranked.specs.View.{entries};
ghost use Rattle.away.specs.Board.{once, fit_quotes};

mod calls;

use crate::prices::AwayPrice;
use ranked::{Rank, RankedList};

// What a list of away prices reads of an entry.
// The list is over any such entry: over `AwayPrice<SIDE>` itself, SIDE a bool or a number, the borrow check refuses calls on it.
pub(crate) trait Quote: Rank {
    ghost exchange: { Self → ℕ };

    ghost price: { Self → ℕ };

    fn exchange(&self) -> u8
        ensures { result ≡ exchange self.now };

    fn price(&self) -> u64
        ensures { result ≡ price self.now };
}

impl<const HIGHER: bool> Quote for AwayPrice<HIGHER> {
    ghost exchange = { λ x. x.exchange };

    ghost price = { λ x. x.price };

    fn exchange(&self) -> u8 {
        self.exchange
    }

    fn price(&self) -> u64 {
        self.price
    }
}

#[derive(Drop)]
pub(crate) struct PriceList<'a, T: Quote> {
    list: RankedList<'a, T>,
    ghost once: { once T.exchange (entries list) ≡ true },
    ghost fit: { fit_quotes T.exchange T.price (entries list) ≡ true },
}
