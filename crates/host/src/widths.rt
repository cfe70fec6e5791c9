// The published widths.
ghost use Rattle.std.specs.Prelude.{◌≡◌};
ghost use Rattle.width.specs.Widths.{table_width};

use width::{Table, WidthRule};

// How far above a bid the published table lets an offer be.
#[unsafe(no_mangle)]
pub extern "C" fn opening_width(bid: u64) -> u64
    ensures { result ≡ table_width bid }
{
    Table.width(bid)
}
