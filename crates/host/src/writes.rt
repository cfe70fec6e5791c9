// A frame, written into a lent buffer.
ghost use Rattle.std.specs.Prelude.{◌≡◌, [], length, None};
ghost use Rattle.feed.specs.Sending.{sent_update, sent_summary};
ghost use Rattle.writer.specs.Refusals.{refused};
ghost use Rattle.writer.specs.Writing.{frame_in, start_refusal, begun, Holds};
ghost use Rattle.host.specs.Writes.{answer_of, symbol_of, Added};

use feed::{Summary, Update};
use writer::Refusal;

// 0, or the refusal's number, as C is told it.
fn answer_of(outcome: Result<(), Refusal>) -> u32
    ensures { result ≡ answer_of (refused outcome) }
{
    outcome
        .err()
        .map_or(0, |refusal| u32::from(refusal.number()))
}

// The eight bytes of a symbol; eight zero bytes where it has another length, so that the writer refuses it, in its order.
fn symbol_of(symbol: &[u8]) -> [u8; 8]
    ensures { result ≡ symbol_of symbol.now }
{
    symbol.try_into().unwrap_or([0; 8])
}

// Begins a frame without a message.
#[unsafe(no_mangle)]
pub extern "C" fn opening_start(buffer: &mut [u8]) -> u32
    ensures answer { result ≡ answer_of (start_refusal buffer.old) }
    ensures after { buffer.new ≡ begun buffer.old }
    ensures holds { start_refusal buffer.old ≡ None → Holds [] buffer.new }
{
    answer_of(writer::start(buffer))
}

// Writes an update behind a buffer's frame. C passes each field by itself, as no struct crosses to it.
#[unsafe(no_mangle)]
pub extern "C" fn opening_add_update(
    buffer: &mut [u8],
    offset: u32,
    symbol: &[u8],
    auction: u8,
    reference: u64,
    buy: u32,
    sell: u32,
    indicative: u64,
    auction_only: u64,
    condition: u8,
    bid: u64,
    offer: u64,
) -> u32
    ensures { Added buffer.old (sent_update (record { offset = offset; symbol = symbol_of symbol.now; auction = auction; reference = reference; buy = buy; sell = sell; indicative = indicative; auction_only = auction_only; condition = condition; bid = bid; offer = offer })) result buffer.new }
{
    let update = Update {
        offset,
        symbol: symbol_of(symbol),
        auction,
        reference,
        buy,
        sell,
        indicative,
        auction_only,
        condition,
        bid,
        offer,
    };
    answer_of(writer::add(buffer, &update))
}

// Writes a summary behind a buffer's frame, its fields passed in the same way.
#[unsafe(no_mangle)]
pub extern "C" fn opening_add_summary(
    buffer: &mut [u8],
    offset: u32,
    symbol: &[u8],
    auction: u8,
    price: u64,
    contracts: u32,
) -> u32
    ensures { Added buffer.old (sent_summary (record { offset = offset; symbol = symbol_of symbol.now; auction = auction; price = price; contracts = contracts })) result buffer.new }
{
    let summary = Summary {
        offset,
        symbol: symbol_of(symbol),
        auction,
        price,
        contracts,
    };
    answer_of(writer::add(buffer, &summary))
}

// The number of bytes of the frame at the start of a buffer.
#[unsafe(no_mangle)]
pub extern "C" fn opening_frame_size(buffer: &[u8]) -> u64
    ensures { result ≡ length (frame_in buffer.now) }
{
    writer::frame(buffer).len() as u64
}
