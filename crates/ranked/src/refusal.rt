// Why an entry is not taken.
ghost use Rattle.std.specs.Prelude.{◌≡◌};
ghost use Rattle.ranked.specs.Refusals.{number_of};

// An enum of its own: a call's type says by which numbers it may refuse.
#[derive(Clone, Copy, Debug, PartialEq)]
pub enum Refusal {
    // every place of the list holds an entry
    NoFreePlace = 7,
}

impl Refusal {
    // The number by which the refusal is published.
    pub fn number(&self) -> u8
        ensures { result ≡ number_of self.now }
    {
        *self as u8
    }
}
