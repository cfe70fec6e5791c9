// What width rules answer at the edges.
ghost use Rattle.std.specs.Prelude.{◌≤◌};

use std::process::Abort;
use std::test::Fail;
use width::{Flat, Multiplied, Refusal, Table, WidthRule, is_too_wide};

// The table's rows but the last: the first and the last bid as published, and the width.
const ROWS: [(u64, u64, u64); 7] = [
    (0, 19_900, 5_000),
    (20_000, 50_000, 8_000),
    (50_100, 100_000, 10_000),
    (100_100, 200_000, 20_000),
    (200_100, 500_000, 30_000),
    (500_100, 1_000_000, 50_000),
    (1_000_100, 2_000_000, 80_000),
];

// The rule of one width, or no rule where it is refused.
fn flat(width: u64) -> Result<Flat, Fail> {
    Flat::new(width).map_err(|_| Fail::new("a width refused"))
}

// A rule times some tenths.
fn times<W: Drop>(below: W, tenths: u64) -> Result<Multiplied<W>, Fail> {
    Multiplied::new(below, tenths).map_err(|_| Fail::new("tenths refused"))
}

// The width of a flat rule times some tenths, or nothing where they are refused.
fn multiplied(rt: &impl Abort, width: u64, tenths: u64) -> Result<Option<u64>, Fail> {
    match Multiplied::new(flat(width)?, tenths) {
        Ok(rule) => Ok(Some(rule.width(20_000))),
        Err(why) => {
            assert_eq!(rt; why, Refusal::OutOfRange);
            Ok(None)
        }
    }
}

// The width by a rule of any kind.
fn width_of(rule: &dyn WidthRule, bid: u64) -> u64
    ensures { result ≤ 1000000 }
{
    rule.width(bid)
}

// A rule whose kind is not known answers as it does, and is known to be no wider than the widest.
#[test]
fn any_kind(rt: HostRuntime) -> Result<(), Fail> {
    assert_eq!(rt; width_of(&Table, 20_000), 8_000);
    assert_eq!(rt; width_of(&flat(1_000_000)?, 20_000), 1_000_000);
    assert_eq!(rt; width_of(&times(Table, 100)?, 2_000_100), 1_000_000);
    Ok(())
}

// Both ends of each row, a ten-thousandth on either side of them, and up to the next row.
#[test]
fn table(rt: HostRuntime) {
    for (first, last, width) in ROWS {
        assert_eq!(rt; Table.width(first), width);
        assert_eq!(rt; Table.width(first.saturating_add(1)), width);
        assert_eq!(rt; Table.width(last.saturating_sub(1)), width);
        assert_eq!(rt; Table.width(last), width);
        assert_eq!(rt; Table.width(last.saturating_add(1)), width);
        assert_eq!(rt; Table.width(last.saturating_add(99)), width);
    }
    for bid in [2_000_100, 2_000_101, u64::MAX] {
        assert_eq!(rt; Table.width(bid), 120_000);
        assert_eq!(rt; (&Table).width(bid), 120_000);
    }
}

// Flat widths and tenths at the edges of their ranges; what is refused has no width.
#[test]
fn ranges(rt: HostRuntime) -> Result<(), Fail> {
    for width in [0, 1, 999_999, 1_000_000] {
        assert_eq!(rt; flat(width)?.width(0), width);
        assert_eq!(rt; flat(width)?.width(u64::MAX), width);
    }
    for width in [1_000_001, u64::MAX] {
        assert_eq!(rt; Flat::new(width).err().map(|why| why.number()), Some(42));
    }
    let cases = [
        (5, 0, None),
        (5, 1, Some(0)),
        (9, 1, Some(0)),
        (10, 1, Some(1)),
        (19, 1, Some(1)),
        (7, 15, Some(10)),
        (0, 100, Some(0)),
        (1, 100, Some(10)),
        (99_999, 100, Some(999_990)),
        (100_000, 100, Some(1_000_000)),
        (100_001, 100, Some(1_000_000)),
        (1_000_000, 10, Some(1_000_000)),
        (1_000_000, 100, Some(1_000_000)),
        (5, 101, None),
        (5, u64::MAX, None),
    ];
    for (width, tenths, expected) in cases {
        assert_eq!(rt; multiplied(&rt, width, tenths)?, expected);
    }
    Ok(())
}

// Piles of rules: each layer rounds down and caps by itself.
#[test]
fn piles(rt: HostRuntime) -> Result<(), Fail> {
    assert_eq!(rt; times(times(flat(15)?, 3)?, 25)?.width(0), 10);
    assert_eq!(rt; times(times(flat(500_000)?, 100)?, 5)?.width(0), 500_000);
    let cases = [
        (19_999, 15, 7_500),
        (20_000, 15, 12_000),
        (u64::MAX, 15, 180_000),
        (u64::MAX, 83, 996_000),
        (u64::MAX, 84, 1_000_000),
    ];
    for (bid, tenths, width) in cases {
        assert_eq!(rt; times(&Table, tenths)?.width(bid), width);
    }
    Ok(())
}

// Offers at a rule's width above the bid, just past it, and below the bid.
#[test]
fn too_wide(rt: HostRuntime) -> Result<(), Fail> {
    let cases = [
        (19_900, 24_900, false),
        (19_900, 24_901, true),
        (19_900, 25_000, true),
        (20_000, 28_000, false),
        (20_000, 28_001, true),
        (25_000, 19_900, false),
        (0, 5_000, false),
        (0, u64::MAX, true),
        (u64::MAX, 0, false),
        (u64::MAX, u64::MAX, false),
    ];
    for (bid, offer, wide) in cases {
        assert_eq!(rt; is_too_wide(&Table, bid, offer), wide);
        assert_eq!(rt; is_too_wide(&&Table, bid, offer), wide);
    }
    assert_eq!(rt; is_too_wide(&flat(0)?, 7, 7), false);
    assert_eq!(rt; is_too_wide(&flat(0)?, 7, 8), true);
    Ok(())
}
