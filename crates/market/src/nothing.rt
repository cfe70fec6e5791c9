// No market at all.
ghost use Rattle.std.specs.Prelude.{None};

use crate::market::{OutsideMarket, Prices};

#[derive(Clone, Copy)]
pub struct NoMarket;

impl OutsideMarket for NoMarket {
    ghost means = { λ _. (None, None) };

    ghost fit = { λ _. (tt, tt) };

    fn ask(&self) -> Prices {
        (None, None)
    }
}
