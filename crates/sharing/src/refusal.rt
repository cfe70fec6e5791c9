// Why contracts are not shared out.
ghost use Rattle.std.specs.Prelude.{◌≡◌};
ghost use Rattle.sharing.specs.Asking.{number_of};

// An enum of its own: a call's type says by which numbers it may refuse.
#[derive(Clone, Copy, Debug, PartialEq)]
pub enum Refusal {
    // over 512 claims, places that differ in number from the claims, or a size over 100,000
    Unfit = 40,
}

impl Refusal {
    // The number by which the refusal is published.
    pub fn number(&self) -> u8
        ensures { result ≡ number_of self.now }
    {
        *self as u8
    }
}
