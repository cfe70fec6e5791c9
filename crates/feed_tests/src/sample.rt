// A frame to try things on: an update and a summary of one series.
use feed::{Summary, Update};

pub const SYMBOL: [u8; 8] = *b"00mEVO  ";

pub const UPDATE: Update = Update {
    offset: 447_000,
    symbol: SYMBOL,
    auction: b'V',
    reference: 1_025_000,
    buy: 100,
    sell: 200,
    indicative: 1_025_000,
    auction_only: 1_025_000,
    condition: b'O',
    bid: 1_010_000,
    offer: 1_030_000,
};

pub const SUMMARY: Summary = Summary {
    offset: 447_000,
    symbol: SYMBOL,
    auction: b'O',
    price: 1_025_000,
    contracts: 75,
};

// The frame of the two: the update at byte 8, the summary at byte 72, the end at byte 99.
pub const FRAME: [u8; 99] = *b"\x63\x00\x02\x00\x00\x00\x00\x00\
    \x40\xd1\x18\xd2\x06\x0000mEVO  V\
    \xe8\xa3\x0f\x00\x00\x00\x00\x00\x64\x00\x00\x00\xc8\x00\x00\x00\
    \xe8\xa3\x0f\x00\x00\x00\x00\x00\xe8\xa3\x0f\x00\x00\x00\x00\x00O\
    \x50\x69\x0f\x00\x00\x00\x00\x00\x70\xb7\x0f\x00\x00\x00\x00\x00\
    \x1b\x96\x18\xd2\x06\x0000mEVO  O\
    \xe8\xa3\x0f\x00\x00\x00\x00\x00\x4b\x00\x00\x00";
