// Another rule's widths, times some tenths.
ghost use Rattle.std.specs.Prelude.{◌≡◌, ◌≤◌, IfOk};
ghost use Rattle.std.specs.Result.{result_err};
ghost use Rattle.width.specs.Refusals.{tenths_refusal};
ghost use Rattle.width.specs.Widths.{multiplied, multiplied-capped};

use crate::refusal::Refusal;
use crate::rule::{WIDEST, WidthRule};

#[derive(Drop)]
pub struct Multiplied<W> {
    below: W,
    tenths: u64,
    ghost low: { 1 ≤ tenths },
    ghost high: { tenths ≤ 100 },
}

impl<W: Drop> Multiplied<W> {
    // The rule below, times tenths from 1 to 100.
    pub fn new(below: W, tenths: u64) -> Result<Multiplied<W>, Refusal>
        ensures answer { result_err result ≡ tenths_refusal tenths }
        ensures value { IfOk result (λ m. (m.below ≡ below) × (m.tenths ≡ tenths)) }
    {
        match tenths {
            1..=100 => Ok(Multiplied { below, tenths }),
            _ => Err(Refusal::OutOfRange),
        }
    }
}

impl<W: WidthRule> WidthRule for Multiplied<W> {
    ghost means = { λ m bid. multiplied (W.WidthRule.means m.below bid) m.tenths };

    ghost capped = { λ m bid. multiplied-capped (W.WidthRule.means m.below bid) m.tenths };

    fn width(&self, bid: u64) -> u64 {
        let scaled = self.below.width(bid) * self.tenths / 10;
        scaled.min(WIDEST)
    }
}
