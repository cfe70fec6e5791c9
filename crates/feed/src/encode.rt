// Messages, written as bytes.
ghost use Rattle.std.specs.Prelude.{◌≡◌, ◌+◌, length, if◌then◌else◌, nat_le, is_ok};
ghost use Rattle.feed.specs.Sending.{Sent, encoded, size_of, fit, InWidths, laid};

use crate::decode::{is_letter, is_symbol};
use crate::layout::{Layout, lay};
use std::convert::AsSlice;

// The bytes do not fit where they are to go.
#[derive(Clone, Copy, Debug, PartialEq)]
pub struct NoRoom;

// A message that can be written.
pub trait Encode {
    ghost sent: { Self → Sent };

    // The number of bytes that it takes.
    fn size(&self) -> usize
        ensures { result ≡ size_of (sent self.now) };

    // Whether its symbol and its auction letter are fit.
    fn is_fit(&self) -> bool
        ensures { result ≡ fit (sent self.now) };

    // Writes its bytes into `buffer` from `place` on; where they do not fit, nothing is written. A buffer cut at the place
    // would be the caller's to cut.
    fn write_at(&self, buffer: &mut [u8], place: usize) -> Result<(), NoRoom>
        ensures answer { is_ok result ≡ nat_le (place + length (encoded (sent self.now))) (length buffer.old) }
        ensures after { buffer.new ≡ (if is_ok result then laid buffer.old place (encoded (sent self.now)) else buffer.old) }
        ensures widths { InWidths (sent self.now) };
}

impl<M: Layout> Encode for M {
    ghost sent = { M.sent };

    fn size(&self) -> usize {
        M::SIZE
    }

    fn is_fit(&self) -> bool {
        is_symbol(&self.symbol()) && is_letter(self.letter())
    }

    fn write_at(&self, buffer: &mut [u8], place: usize) -> Result<(), NoRoom> {
        put(buffer, place, self.bytes().as_slice())
    }
}

// Writes bytes into a buffer from a place on, where they fit. A buffer cut at the place would be the caller's to cut.
pub fn put(buffer: &mut [u8], place: usize, m: &[u8]) -> Result<(), NoRoom>
    ensures answer { is_ok result ≡ nat_le (place + length m.now) (length buffer.old) }
    ensures after { buffer.new ≡ (if is_ok result then laid buffer.old place m.now else buffer.old) }
{
    if place.saturating_add(m.len()) > buffer.len() {
        return Err(NoRoom);
    }
    lay(buffer, place, m);
    Ok(())
}
