// In proportion to the sizes.
ghost use Rattle.std.specs.Prelude.{◌≡◌, ◌*◌, ◌/◌, ◌<◌, ◌≤◌, length};
ghost use Rattle.sharing.specs.Asking.{sizes};
ghost use Rattle.sharing.specs.Shares.{sum, floors, extra, pro_rata};
ghost use Rattle.sharing.specs.Laws.{pro_rata_shared};

use crate::arrival::Arrival;
use crate::claim::{Claim, check};
use crate::refusal::Refusal;
use crate::rule::SharingRule;

#[derive(Clone, Copy)]
pub struct ProRata;

// How many contracts are claimed.
#[tactic(auto, using(crate::proofs::Enough::sum_of_sizes))]
fn claimed(claims: &[Claim]) -> u64
    requires { length claims.now ≤ 512 }
    ensures { result ≡ sum (sizes claims.now) }
{
    claims.iter().map(|claim| u64::from(claim.size)).sum()
}

// One contract more where one is left and the share is not full.
fn extra_for(left: u64, share: u32, size: u32) -> u32
    ensures { result ≡ extra left share size }
{
    u32::from(share < size && left > 0)
}

// Contracts that are fewer than are claimed.
#[derive(Clone, Copy)]
struct Scarce<'a> {
    n: u64,
    claims: &'a [Claim],
    whole: u64,
    ghost few: { length claims.now ≤ 512 },
    ghost all_claimed: { whole ≡ sum (sizes claims.now) },
    ghost short: { n < whole },
    ghost small: { whole ≤ 51200000 },
}

impl Scarce<'_> {
    // A size's part of the contracts, rounded down.
    #[tactic(auto, using(crate::specs::Laws::floor_le))]
    fn part(&self, size: u32) -> u32
        ensures { result ≡ self.now.n * size / self.now.whole }
    {
        (self.n * u64::from(size) / self.whole) as u32
    }

    // How many of the contracts are given where each part is rounded down.
    #[tactic(auto, using(crate::proofs::Enough::sum_of_floors))]
    fn rounded_down(&self) -> u64
        ensures { result ≡ sum (floors self.now.n self.now.whole (sizes self.now.claims.now)) }
    {
        self.claims
            .iter()
            .map(|claim| u64::from(self.part(claim.size)))
            .sum()
    }

    // Writes each claim's part rounded down, and one more to the earliest while any are spare.
    #[tactic(auto, using(crate::specs::Laws::given_low))]
    fn round_in_turn(&self, shares: &mut [u32])
        requires { length self.now.claims.now ≡ length shares.old }
        ensures { shares.new ≡ pro_rata self.now.n (sizes self.now.claims.now) }
    {
        let mut left = self.n - self.rounded_down();
        // by index: a proof is not told what is written through `iter_mut` under `zip`
        for (i, claim) in self.claims.iter().enumerate() {
            let part = self.part(claim.size);
            let more = extra_for(left, part, claim.size);
            shares[i] = part + more;
            left -= u64::from(more);
        }
    }
}

impl SharingRule for ProRata {
    ghost means = { λ _ n claims. pro_rata n (sizes claims) };

    ghost fair = { λ _ n claims. pro_rata_shared n (sizes claims) };

    #[tactic(auto, using(crate::proofs::Enough::same_places, crate::proofs::Enough::fit))]
    fn share(&self, n: u64, claims: &[Claim], shares: &mut [u32]) -> Result<(), Refusal> {
        check(claims, shares.len())?;
        let whole = claimed(claims);
        if n >= whole {
            return Arrival.share(n, claims, shares);
        }
        Scarce { n, claims, whole }.round_in_turn(shares);
        Ok(())
    }
}
