// Frames in a lent buffer.
ghost use Rattle.std.specs.Prelude.{◌≡◌, ◌≤◌, List, [], ◌∷◌, ◌++◌, map, length, None};
ghost use Rattle.feed.specs.Bytes.{bytes};
ghost use Rattle.feed.specs.Layouts.{every_type};
ghost use Rattle.feed.specs.Frames.{saying, frame_says};
ghost use Rattle.feed.specs.Sending.{Sent, meant, AllFit, frame_of, laid};
ghost use Rattle.writer.specs.Refusals.{refused};
ghost use Rattle.writer.specs.Writing.{length_in, frame_in, has_room, refusal, written, start_refusal, begun, written_all, Holds, sent_after};

use crate::refusal::Refusal;
use feed::{Encode, byte_at, put};

// The longest frame.
pub const MAX_FRAME: usize = 1500;

// The length that the header at the start of a buffer says. It is kept nowhere else, as C lends the buffer alone.
fn length_in(buffer: &[u8]) -> usize
    ensures { result ≡ length_in buffer.now }
{
    usize::from(u16::from_le_bytes([byte_at(buffer, 0), byte_at(buffer, 1)]))
}

// Whether `n` bytes more go behind a buffer's frame.
fn has_room(buffer: &[u8], n: usize) -> bool
    ensures { result ≡ has_room buffer.now n }
{
    let length = length_in(buffer);
    let end = length.saturating_add(n);
    length >= 8 && byte_at(buffer, 2) < 255 && end <= MAX_FRAME && end <= buffer.len()
}

// The frame at the start of a buffer.
pub fn frame(buffer: &[u8]) -> &[u8]
    ensures { result.now ≡ frame_in buffer.now }
{
    buffer.get(..length_in(buffer)).unwrap_or(buffer)
}

// Writes a frame's length and its count of messages into its header.
#[tactic(auto, unfolding(feed::specs::Sending::laid))]
fn write_header(buffer: &mut [u8], total: u16, count: u8)
    requires { 8 ≤ length buffer.old }
    ensures { buffer.new ≡ laid buffer.old 0 (bytes 2 total ++ (count ∷ [])) }
{
    let [low, high] = total.to_le_bytes();
    buffer[..3].copy_from_slice(&[low, high, count]);
}

// Begins a frame without a message at the start of `buffer`.
#[tactic(auto, using(crate::proofs::Holding::starts_all))]
pub fn start(buffer: &mut [u8]) -> Result<(), Refusal>
    ensures answer { refused result ≡ start_refusal buffer.old }
    ensures after { buffer.new ≡ begun buffer.old }
    ensures holds { refused result ≡ None → Holds [] buffer.new }
    ensures all_that_fits_is_written { (ms : List Sent) → AllFit ms → length (frame_of ms) ≤ 1500 → length (frame_of ms) ≤ length buffer.old → Holds ms (written_all buffer.new ms) }
{
    Ok(put(buffer, 0, &[8, 0, 0, 0, 0, 0, 0, 0])?)
}

// Writes a message behind the frame at the start of `buffer`.
#[tactic(auto, using(crate::proofs::Holding::reads))]
pub fn add<M: Encode>(buffer: &mut [u8], message: &M) -> Result<(), Refusal>
    ensures answer { refused result ≡ refusal buffer.old (M.Encode.sent message.now) }
    ensures after { buffer.new ≡ written buffer.old (M.Encode.sent message.now) }
    ensures holds { (ms : List Sent) → Holds ms buffer.old → Holds (sent_after (refused result) ms (M.Encode.sent message.now)) buffer.new }
    ensures reads { (ms : List Sent) → Holds ms buffer.old → frame_says every_type (frame_in buffer.new) ≡ saying (map meant (sent_after (refused result) ms (M.Encode.sent message.now))) }
{
    let size = message.size();
    if !has_room(buffer, size) {
        return Err(Refusal::NoRoom);
    }
    if !message.is_fit() {
        return Err(Refusal::Unfit);
    }
    let length = length_in(buffer);
    let count = byte_at(buffer, 2);
    // not refused, since there is room
    message.write_at(buffer, length)?;
    write_header(buffer, (length + size) as u16, count + 1);
    Ok(())
}
