// The messages of the feed. A price counts ten-thousandths of a dollar.

// How a series would open now.
#[derive(Clone, Copy, Debug, PartialEq)]
pub struct Update {
    // nanoseconds since the feed's last time message
    pub offset: u32,
    // printable, with blanks behind it
    pub symbol: [u8; 8],
    // the auction's letter: G, O, H or V; a byte, since the writer refuses another one by a published number
    pub auction: u8,
    pub reference: u64,
    pub buy: u32,
    pub sell: u32,
    pub indicative: u64,
    pub auction_only: u64,
    // the letter of the opening condition; any byte is read and written
    pub condition: u8,
    pub bid: u64,
    pub offer: u64,
}

// How a series opened.
#[derive(Clone, Copy, Debug, PartialEq)]
pub struct Summary {
    pub offset: u32,
    pub symbol: [u8; 8],
    // a byte, as in an update
    pub auction: u8,
    pub price: u64,
    pub contracts: u32,
}

// One message of a frame. One of an unknown type is its bytes within the frame.
#[derive(Clone, Copy, Debug)]
pub enum Message<'a> {
    Update(Update),
    Summary(Summary),
    Unknown(&'a [u8]),
}
