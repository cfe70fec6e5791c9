// From the front until the contracts are used up.
ghost use Rattle.std.specs.Prelude.{◌≡◌, length};
ghost use Rattle.sharing.specs.Asking.{sizes};
ghost use Rattle.sharing.specs.Shares.{arrival};
ghost use Rattle.sharing.specs.Laws.{arrival_shared};

use crate::claim::{Claim, check};
use crate::refusal::Refusal;
use crate::rule::SharingRule;

#[derive(Clone, Copy)]
pub struct Arrival;

// Writes the shares of claims by arrival.
fn fill_in_turn(n: u64, claims: &[Claim], shares: &mut [u32])
    requires { length claims.now ≡ length shares.old }
    ensures { shares.new ≡ arrival n (sizes claims.now) }
{
    let mut left = n;
    // by index: a proof is not told what is written through `iter_mut` under `zip`
    for (i, claim) in claims.iter().enumerate() {
        let share = left.min(u64::from(claim.size));
        shares[i] = share as u32;
        left -= share;
    }
}

impl SharingRule for Arrival {
    ghost means = { λ _ n claims. arrival n (sizes claims) };

    ghost fair = { λ _ n claims. arrival_shared n (sizes claims) };

    fn share(&self, n: u64, claims: &[Claim], shares: &mut [u32]) -> Result<(), Refusal> {
        check(claims, shares.len())?;
        fill_in_turn(n, claims, shares);
        Ok(())
    }
}
