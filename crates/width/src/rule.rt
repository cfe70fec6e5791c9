// What every width rule is.
ghost use Rattle.std.specs.Prelude.{◌≡◌, ℕ};
ghost use Rattle.width.specs.Widths.{Capped, too_wide};

// The widest width that a rule answers: 100.00.
pub const WIDEST: u64 = 1_000_000;

pub trait WidthRule {
    // The width at each bid.
    ghost means: { Self → ℕ → ℕ };

    // No width is over the widest. It stands above the calls, as data, so that a `dyn` rule has it too and a clause can name it.
    ghost capped: { Capped means };

    // The width at a bid.
    fn width(&self, bid: u64) -> u64
        ensures answer { result ≡ means self.now bid }
        ensures unchanged { self.exit.now ≡ self.entry.now };
}

// A rule lent is that rule.
impl<'a, W: WidthRule> WidthRule for &'a W {
    ghost means = { λ w bid. W.WidthRule.means w.now bid };

    ghost capped = { λ w bid. W.WidthRule.capped w.now bid };

    fn width(&self, bid: u64) -> u64 {
        (*self).width(bid)
    }
}

// Whether an offer is further above a bid than the rule's width at that bid.
pub fn is_too_wide<W: WidthRule>(rule: &W, bid: u64, offer: u64) -> bool
    ensures { result ≡ too_wide (W.WidthRule.means rule.now bid) bid offer }
{
    offer.saturating_sub(bid) > rule.width(bid)
}
