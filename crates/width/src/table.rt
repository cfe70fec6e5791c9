// The published table.
ghost use Rattle.std.specs.Prelude.{◌≡◌};
ghost use Rattle.width.specs.Widths.{looked_up, table_width, table_capped};

use crate::rule::WidthRule;

// The lowest bid of each row, and its width: a constant table, as it is published.
const ROWS: [(u64, u64); 8] = [
    (0, 5_000),
    (20_000, 8_000),
    (50_100, 10_000),
    (100_100, 20_000),
    (200_100, 30_000),
    (500_100, 50_000),
    (1_000_100, 80_000),
    (2_000_100, 120_000),
];

// The width of the last of some rows whose lowest bid is at or below the bid.
#[tactic(auto, using(crate::proofs::Rows::looked_up_is))]
fn looked_up(rows: &[(u64, u64)], bid: u64) -> u64
    ensures { result ≡ looked_up bid rows.now 0 }
{
    // through every row: a search from the last one that stops at the row found is slower
    rows.iter().fold(0, |width, &(lowest, row_width)| {
        if lowest <= bid { row_width } else { width }
    })
}

#[derive(Clone, Copy)]
pub struct Table;

impl WidthRule for Table {
    ghost means = { λ _ bid. table_width bid };

    ghost capped = { λ _ bid. table_capped bid };

    fn width(&self, bid: u64) -> u64 {
        looked_up(&ROWS, bid)
    }
}
