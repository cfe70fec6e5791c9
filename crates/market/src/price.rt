// Market prices.
ghost use Rattle.std.specs.Prelude.{◌≡◌};
ghost use Rattle.market.specs.Market.{is_price, side_fit};

// Whether a number is a market price.
pub fn is_price(p: u64) -> bool
    ensures { result ≡ is_price p }
{
    p % 100 == 0 && (100..=500_000_000).contains(&p)
}

// Whether a side lacks or is a market price.
pub(crate) fn is_side(side: Option<u64>) -> bool
    ensures { result ≡ side_fit side }
{
    side.is_none_or(is_price)
}
