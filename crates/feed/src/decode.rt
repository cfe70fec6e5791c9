// Frames and messages, read from their bytes.
ghost use Rattle.std.specs.Prelude.{◌≡◌, ◌+◌, ◌^◌, ◌<◌, ◌≤◌, length, IfOk, slice_index};
ghost use Rattle.feed.specs.Layouts.{printable, symbol_fit, letter_fit, flaw, checked, published, every_type};
ghost use Rattle.feed.specs.Faults.{fault_at};
ghost use Rattle.feed.specs.Frames.{count_of, message_at};
ghost use Rattle.feed.specs.Shown.{heard, found, LentAt};

use crate::fault::{Fault, Reason};
use crate::layout::{Layout, field};
use crate::message::{Message, Summary, Update};

// The byte at a place; past the end, 0.
pub fn byte_at(bytes: &[u8], place: usize) -> u8
    ensures { result ≡ slice_index bytes.now place }
{
    bytes.get(place).copied().unwrap_or(0)
}

fn is_printable(byte: u8) -> bool
    ensures { result ≡ printable byte }
{
    matches!(byte, 0x20..=0x7e)
}

// Whether a symbol may stand in a message.
pub fn is_symbol(symbol: &[u8]) -> bool
    ensures { result ≡ symbol_fit symbol.now }
{
    symbol.iter().all(|byte| is_printable(*byte))
}

// Whether a byte is an auction letter.
pub fn is_letter(b: u8) -> bool
    ensures { result ≡ letter_fit b }
{
    matches!(b, b'G' | b'O' | b'H' | b'V')
}

// One message of a frame: where it begins, and its bytes. Its calls take it by value: behind a reference it is laid in
// memory, and a message is read more slowly.
#[derive(Clone, Copy)]
struct Part<'a> {
    place: usize,
    bytes: &'a [u8],
    ghost long: { 2 ≤ length bytes.now },
    ghost within: { place + length bytes.now < 2 ^ 63 },
}

impl<'a> Part<'a> {
    // A fault that lies so many bytes behind its beginning.
    fn fault(self, reason: Reason, behind: u8) -> Fault
        ensures { result ≡ fault_at reason (self.entry.place + behind) }
    {
        Fault {
            reason,
            place: self.place + usize::from(behind),
        }
    }

    // What is wrong with it, if it has a layout of `n` bytes. Symbol and letter are named by their places, as `read` names every field.
    #[tactic(auto, unfolding(crate::specs::Layouts::flaw))]
    fn check(self, n: usize) -> Result<(), Fault>
        requires { 27 ≤ n }
        ensures value { result ≡ checked (flaw n self.entry.bytes.now self.entry.place) tt }
        ensures long { IfOk result (λ _. n ≤ length self.entry.bytes.now) }
    {
        if self.bytes.len() < n {
            return Err(self.fault(Reason::Short, 0));
        }
        if !is_symbol(&self.bytes[6..14]) {
            return Err(self.fault(Reason::Symbol, 6));
        }
        if !is_letter(self.bytes[14]) {
            return Err(self.fault(Reason::Letter, 14));
        }
        Ok(())
    }

    // What it tells by its type.
    fn message(self) -> Result<Message<'a>, Fault>
        ensures answer { heard result ≡ published self.entry.bytes.now self.entry.place }
        ensures lent { IfOk result (λ x. LentAt self.entry.bytes.ref_ptr.0 self.entry.bytes.ref_ptr.1 x) }
    {
        // each message is made in its arm: one that comes in a `Result` of its own type is copied, and reading is slower
        match self.bytes[1] {
            Update::TYPE => {
                self.check(Update::SIZE)?;
                Ok(Message::Update(Update::read(self.bytes)))
            }
            Summary::TYPE => {
                self.check(Summary::SIZE)?;
                Ok(Message::Summary(Summary::read(self.bytes)))
            }
            _ => Ok(Message::Unknown(self.bytes)),
        }
    }
}

// A message of a frame, and the place behind it.
#[derive(Clone, Copy)]
pub struct Found<'a> {
    pub message: Message<'a>,
    pub next: usize,
}

// The message that begins at `place` of a frame.
pub fn message_at<'a>(frame: &'a [u8], place: usize) -> Result<Found<'a>, Fault>
    ensures answer { found result ≡ message_at every_type frame.now place }
    ensures next { IfOk result (λ x. x.next ≡ place + slice_index frame.now place) }
    ensures lent { IfOk result (λ x. LentAt frame.entry.ref_ptr.0 (place + frame.entry.ref_ptr.1) x.message) }
{
    let length = usize::from(byte_at(frame, place));
    let next = place.saturating_add(length);
    if length < 2 || next > frame.len() {
        return Err(Fault {
            reason: Reason::Length,
            place,
        });
    }
    // `get` would not say at which address the bytes lie
    let bytes = &frame[place..next];
    let part = Part { place, bytes };
    part.message().map(|message| Found { message, next })
}

// The number of messages that a frame's header counts.
pub fn count_of(frame: &[u8]) -> Result<u8, Fault>
    ensures { result ≡ count_of frame.now }
{
    if frame.len() < 8 || usize::from(u16::from_le_bytes(field(frame, 0))) != frame.len() {
        return Err(Fault {
            reason: Reason::Header,
            place: 0,
        });
    }
    Ok(frame[2])
}
