// One width for every bid.
ghost use Rattle.std.specs.Prelude.{◌≡◌, ◌≤◌, IfOk};
ghost use Rattle.std.specs.Result.{result_err};
ghost use Rattle.width.specs.Refusals.{flat_refusal};
ghost use Rattle.width.specs.Widths.{widest};

use crate::refusal::Refusal;
use crate::rule::{WIDEST, WidthRule};

#[derive(Clone, Copy)]
pub struct Flat {
    width: u64,
    ghost capped: { width ≤ widest },
}

impl Flat {
    // The rule of one width, which may not be over the widest.
    pub fn new(width: u64) -> Result<Flat, Refusal>
        ensures answer { result_err result ≡ flat_refusal width }
        ensures value { IfOk result (λ f. f.width ≡ width) }
    {
        if width > WIDEST {
            return Err(Refusal::OutOfRange);
        }
        Ok(Flat { width })
    }
}

impl WidthRule for Flat {
    ghost means = { λ f _. f.width };

    ghost capped = { λ f _. f.capped };

    fn width(&self, _bid: u64) -> u64 {
        self.width
    }
}
