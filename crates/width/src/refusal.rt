// Why a width rule is not made.
ghost use Rattle.std.specs.Prelude.{◌≡◌};
ghost use Rattle.width.specs.Refusals.{number_of};

// An enum of its own: a call's type says by which numbers it may refuse.
#[derive(Clone, Copy, Debug, PartialEq)]
pub enum Refusal {
    // a width over the widest, or tenths that are not 1 to 100
    OutOfRange = 42,
}

impl Refusal {
    // The number by which the refusal is published.
    pub fn number(&self) -> u8
        ensures { result ≡ number_of self.now }
    {
        *self as u8
    }
}
