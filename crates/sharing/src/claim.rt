// What is shared out to.
ghost use Rattle.std.specs.Prelude.{◌≡◌, nat_le};
ghost use Rattle.std.specs.List.{list_all};
ghost use Rattle.std.specs.Result.{result_err};
ghost use Rattle.sharing.specs.Asking.{fits, ask_refusal};

use crate::refusal::Refusal;

// The most claims that are shared out to at a time.
pub const MAX_CLAIMS: usize = 512;

// The largest size of a claim.
pub const MAX_SIZE: u32 = 100_000;

// A claim to at most `size` contracts.
#[derive(Clone, Copy)]
pub struct Claim {
    pub size: u32,
}

// Whether no claim is larger than a claim may be. Apart, since behind other tests no proof is found of what `all` answers.
fn all_small(claims: &[Claim]) -> bool
    ensures { result ≡ list_all (λ claim. nat_le claim.size 100000) claims.now }
{
    claims.iter().all(|claim| claim.size <= MAX_SIZE)
}

// Whether an ask with these claims and this many places is fit.
#[tactic(auto, using(crate::proofs::Enough::sizes_fit_is))]
pub fn fit_to_share(claims: &[Claim], places: usize) -> bool
    ensures { result ≡ fits claims.now places }
{
    claims.len() <= MAX_CLAIMS && claims.len() == places && all_small(claims)
}

// Refuses an ask that is not fit.
pub(crate) fn check(claims: &[Claim], places: usize) -> Result<(), Refusal>
    ensures { result_err result ≡ ask_refusal claims.now places }
{
    if fit_to_share(claims, places) {
        Ok(())
    } else {
        Err(Refusal::Unfit)
    }
}
