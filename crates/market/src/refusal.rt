// Why a price is not taken.
ghost use Rattle.std.specs.Prelude.{◌≡◌};
ghost use Rattle.market.specs.Refusals.{number_of};

// An enum of its own: a call's type says by which numbers it may refuse.
#[derive(Clone, Copy, Debug, PartialEq)]
pub enum Refusal {
    // the exchange is not in the list, and the list has no free place
    NoFreePlace = 7,
    // an exchange's letter or a price is unfit
    Unfit = 41,
}

impl Refusal {
    // The number by which the refusal is published.
    pub fn number(&self) -> u8
        ensures { result ≡ number_of self.now }
    {
        *self as u8
    }
}
