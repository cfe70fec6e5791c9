// Why a message is not written.
ghost use Rattle.std.specs.Prelude.{◌≡◌};
ghost use Rattle.writer.specs.Refusals.{number_of};
ghost use Rattle.writer.specs.declared.refusal.Refusal.TheVariants.{NoRoom};

use feed::NoRoom;

// An enum of its own: a call's type says by which numbers it may refuse.
#[derive(Clone, Copy, Debug, PartialEq)]
pub enum Refusal {
    // past the buffer, or past the longest frame
    NoRoom = 35,
    // the symbol or the auction letter is unfit
    Unfit = 36,
}

impl Refusal {
    // The number by which the refusal is published.
    pub fn number(&self) -> u8
        ensures { result ≡ number_of self.now }
    {
        *self as u8
    }
}

impl From<NoRoom> for Refusal {
    ghost from_gives = { λ _ refusal. refusal ≡ NoRoom };

    fn from(_: NoRoom) -> Self {
        Self::NoRoom
    }
}
