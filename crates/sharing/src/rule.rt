// What every sharing rule is.
ghost use Rattle.std.specs.Prelude.{◌≡◌, ℕ, List, length};
ghost use Rattle.std.specs.Result.{result_err};
ghost use Rattle.sharing.specs.declared.claim.Claim.{Claim};
ghost use Rattle.sharing.specs.Asking.{Fair, ask_refusal, places_after};

use crate::claim::Claim;
use crate::refusal::Refusal;

pub trait SharingRule {
    // The shares of a number of contracts among claims, in the claims' order.
    ghost means: { Self → ℕ → List Claim → List ℕ };

    // No share is above its claim's size, and together they are n or all that is claimed. It stands above the calls, as
    // data, so that a `dyn` rule has it too and a clause can name it.
    ghost fair: { Fair means };

    // Writes the claims' shares of n into the places brought; nothing where the ask is unfit. Claims and places are two lent
    // slices, so that no memory is taken.
    fn share(&self, n: u64, claims: &[Claim], shares: &mut [u32]) -> Result<(), Refusal>
        ensures answer { result_err result ≡ ask_refusal claims.now (length shares.old) }
        ensures after { shares.new ≡ places_after claims.now (means self.now n claims.now) shares.old }
        ensures unchanged { self.exit.now ≡ self.entry.now };
}

// A rule lent is that rule.
impl<'a, S: SharingRule> SharingRule for &'a S {
    ghost means = { λ s n claims. S.SharingRule.means s.now n claims };

    ghost fair = { λ s n claims. S.SharingRule.fair s.now n claims };

    fn share(&self, n: u64, claims: &[Claim], shares: &mut [u32]) -> Result<(), Refusal> {
        (*self).share(n, claims, shares)
    }
}
