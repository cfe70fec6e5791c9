// What sharing rules answer and write at the edges.
ghost use Rattle.std.specs.Prelude.{◌≡◌, min, IfOk};
ghost use Rattle.std.specs.Result.{result_err};
ghost use Rattle.sharing.specs.Asking.{sizes, ask_refusal};
ghost use Rattle.sharing.specs.Shares.{sum};

use sharing::{Arrival, Claim, ProRata, Refusal, SharingRule};
use std::process::Abort;
use std::test::Fail;

// What any rule gives three claims.
fn shared<S: SharingRule>(rule: &S, n: u64, claims: &[Claim; 3]) -> Result<[u32; 3], Refusal>
    ensures answer { result_err result ≡ ask_refusal claims.now 3 }
    ensures value { IfOk result (λ shares. shares ≡ S.SharingRule.means rule.now n claims.now) }
    ensures whole { IfOk result (λ shares. sum shares ≡ min n (sum (sizes claims.now))) }
{
    let mut shares = [9; 3];
    rule.share(n, claims, &mut shares)?;
    Ok(shares)
}

// What a rule of any kind gives three claims.
fn shared_by(rule: &dyn SharingRule, n: u64, claims: &[Claim; 3]) -> Result<[u32; 3], Refusal>
    ensures answer { result_err result ≡ ask_refusal claims.now 3 }
    ensures whole { IfOk result (λ shares. sum shares ≡ min n (sum (sizes claims.now))) }
{
    let mut shares = [9; 3];
    rule.share(n, claims, &mut shares)?;
    Ok(shares)
}

// Three claims.
fn claims_of(sizes: [u32; 3]) -> [Claim; 3] {
    sizes.map(|size| Claim { size })
}

// The shares of three sizes, by arrival and pro rata, and the same where the rule is lent.
#[test]
fn three_claims(rt: HostRuntime) {
    let sevens = [7, 7, 7];
    let cases = [
        (0, sevens, [0, 0, 0], [0, 0, 0]),
        (1, sevens, [1, 0, 0], [1, 0, 0]),
        (10, sevens, [7, 3, 0], [4, 3, 3]),
        (20, sevens, [7, 7, 6], [7, 7, 6]),
        (21, sevens, sevens, sevens),
        (22, sevens, sevens, sevens),
        (u64::MAX, sevens, sevens, sevens),
        (0, [0, 0, 0], [0, 0, 0], [0, 0, 0]),
        (1, [0, 0, 0], [0, 0, 0], [0, 0, 0]),
        (u64::MAX, [0, 0, 0], [0, 0, 0], [0, 0, 0]),
        (5, [0, 7, 3], [0, 5, 0], [0, 4, 1]),
        (10, [1, 1, 100], [1, 1, 8], [1, 0, 9]),
        (
            299_999,
            [100_000; 3],
            [100_000, 100_000, 99_999],
            [100_000, 100_000, 99_999],
        ),
    ];
    for (n, sizes, arrival, pro_rata) in cases {
        let claims = claims_of(sizes);
        assert_eq!(rt; shared(&Arrival, n, &claims), Ok(arrival));
        assert_eq!(rt; shared(&&Arrival, n, &claims), Ok(arrival));
        assert_eq!(rt; shared(&ProRata, n, &claims), Ok(pro_rata));
        assert_eq!(rt; shared(&&ProRata, n, &claims), Ok(pro_rata));
    }
    for sizes in [[100_001, 7, 7], [7, 100_001, 7], [7, 7, u32::MAX]] {
        let claims = claims_of(sizes);
        assert_eq!(rt; shared(&Arrival, 10, &claims), Err(Refusal::Unfit));
        assert_eq!(rt; shared(&ProRata, 10, &claims), Err(Refusal::Unfit));
    }
    assert_eq!(rt; Refusal::Unfit.number(), 40);
}

// A rule whose kind is not known gives as it does, and is known to give all of n that is claimed.
#[test]
fn any_kind(rt: HostRuntime) {
    let claims = claims_of([7, 7, 7]);
    assert_eq!(rt; shared_by(&Arrival, 10, &claims), Ok([7, 3, 0]));
    assert_eq!(rt; shared_by(&ProRata, 10, &claims), Ok([4, 3, 3]));
    let claims = claims_of([7, 100_001, 7]);
    assert_eq!(rt; shared_by(&ProRata, 10, &claims), Err(Refusal::Unfit));
}

// An ask: how many claims of which size, n, how many places, and if it is fit, how many of the places are full and what
// each of the others then gets.
type Ask = (usize, u32, u64, usize, Option<(usize, u32)>);

// Asks a rule, and checks the answer and every place; 9 stands in each before, and stays past the places brought and where
// the ask is refused.
fn answers<S: SharingRule>(rt: &impl Abort, rule: &S, ask: Ask) -> Result<(), Fail> {
    let (count, size, n, places, fit) = ask;
    if count > 513 || places > 514 {
        return Err(Fail::new("an ask past the space"));
    }
    let claims = [Claim { size }; 513];
    let mut space = [9; 514];
    let answer = rule.share(n, &claims[..count], &mut space[..places]);
    assert_eq!(rt; answer.is_ok(), fit.is_some());
    // by place, since what is expected depends on it
    for (i, share) in space.iter().enumerate() {
        let expected = match fit {
            Some((full, rest)) if i < places => if i < full { size } else { rest },
            _ => 9,
        };
        assert_eq!(rt; *share, expected);
    }
    Ok(())
}

// As many claims and places as may be, one more and one less, and the largest sizes.
#[test]
fn many_claims(rt: HostRuntime) -> Result<(), Fail> {
    let asks = [
        (0, 1, 300, 0, Some((0, 0))),
        (0, 1, 300, 1, None),
        (1, 1, 300, 0, None),
        (3, 1, 2, 2, None),
        (3, 1, 2, 3, Some((2, 0))),
        (3, 1, 2, 4, None),
        (512, 1, 300, 511, None),
        (512, 1, 300, 512, Some((300, 0))),
        (512, 1, 300, 513, None),
        (513, 1, 300, 512, None),
        (513, 1, 300, 513, None),
        (512, 100_000, 51_199_999, 512, Some((511, 99_999))),
        (512, 100_000, 51_200_000, 512, Some((512, 0))),
        (512, 100_000, u64::MAX, 512, Some((512, 0))),
        (512, 100_001, 300, 512, None),
    ];
    for ask in asks {
        answers(&rt, &Arrival, ask)?;
        answers(&rt, &ProRata, ask)?;
        answers(&rt, &&ProRata, ask)?;
    }
    Ok(())
}
