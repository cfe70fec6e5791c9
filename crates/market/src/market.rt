// The interface.
ghost use Rattle.std.specs.Prelude.{◌≡◌};
ghost use Rattle.market.specs.Market.{Pair, Fit};

// A bid or none, and an offer or none: a tuple, since that is the answer that every outside market is to give.
pub type Prices = (Option<u64>, Option<u64>);

// A bid or none and an offer or none, as other exchanges have them. Asking changes nothing and never refuses.
pub trait OutsideMarket {
    ghost means: { Self → Pair };

    // Each side that is there is a market price. It stands above the calls, as data, so that a `dyn` market has it too and
    // a clause can name it.
    ghost fit: { Fit means };

    // The bid and the offer.
    fn ask(&self) -> Prices
        ensures answer { result ≡ means self.now }
        ensures unchanged { self.exit.now ≡ self.entry.now };
}

// A market that is lent is that market.
impl<'a, M: OutsideMarket> OutsideMarket for &'a M {
    ghost means = { λ m. M.OutsideMarket.means m.now };

    ghost fit = { λ m. M.OutsideMarket.fit m.now };

    fn ask(&self) -> Prices {
        (*self).ask()
    }
}
