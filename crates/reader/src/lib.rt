// A frame, read message by message.
#![tactic(auto)]

ghost use Rattle.std.specs.Prelude.{◌≡◌, ◌+◌, ◌<◌, ◌≤◌, List, map, length, IfSome, IfOk, slice_index};
ghost use Rattle.std.specs.Iterator.{YieldsFirstBy, item_count};
ghost use Rattle.feed.specs.Layouts.{every_type};
ghost use Rattle.feed.specs.Frames.{saying, frame_says, first, later};
ghost use Rattle.feed.specs.Sending.{Sent, meant, AllFit, frame_of};
ghost use Rattle.feed.specs.Shown.{heard, LentAt};
ghost use Rattle.reader.specs.Reading.{ahead, opened, resumed, moved, answered, answered_found, items, items_left};

use feed::{Fault, Found, Message, Reason, count_of, message_at};

// A reader holds the lent frame, and where it stands in it by a place and a count, as `resume` takes them from a caller in C. It owns no memory.
#[derive(Drop)]
pub struct Reader<'a> {
    frame: &'a [u8],
    place: usize,
    left: u8,
    fault: Option<Fault>,
}

impl<'a> Reader<'a> {
    // A reader at the start of a frame.
    pub fn new(frame: &'a [u8]) -> Reader<'a>
        ensures value { result ≡ opened frame.entry }
        ensures says { ahead result ≡ frame_says every_type frame.now }
        ensures returns_what_was_written { (ms : List Sent) → AllFit ms → length (frame_of ms) ≤ 1500 → frame.now ≡ frame_of ms → ahead result ≡ saying (map meant ms) }
    {
        let count = count_of(frame);
        Reader {
            frame,
            place: 8,
            left: count.unwrap_or(0),
            fault: count.err(),
        }
    }

    // A reader that goes on at a place of a frame, where so many messages are still counted.
    pub fn resume(frame: &'a [u8], place: usize, left: u8) -> Reader<'a>
        ensures { result ≡ resumed frame.entry place left }
    {
        Reader {
            frame,
            place,
            left,
            fault: None,
        }
    }

    // Where a reader stands: the place of the next message, and how many are still counted; a pair, as a C caller keeps both.
    pub fn position(&self) -> (usize, u8)
        ensures { result ≡ (self.now.place, self.now.left) }
    {
        (self.place, self.left)
    }

    // The message at the place, none at the end.
    fn found(&self) -> Result<Option<Found<'a>>, Fault>
        ensures answer { answered_found result ≡ first (ahead self.now) }
        ensures next { IfOk result (λ o. IfSome o (λ x. (0 < self.now.left) × (x.next ≡ self.now.place + slice_index self.now.frame.now self.now.place))) }
        ensures lent { IfOk result (λ o. IfSome o (λ x. LentAt self.now.frame.ref_ptr.0 (self.now.place + self.now.frame.ref_ptr.1) x.message)) }
    {
        if let Some(fault) = self.fault {
            return Err(fault);
        }
        if self.left > 0 {
            return message_at(self.frame, self.place).map(Some);
        }
        if self.place < self.frame.len() {
            return Err(Fault {
                reason: Reason::Leftover,
                place: self.place,
            });
        }
        Ok(None)
    }

    // The next message, none after the last, or the fault, which stays.
    pub fn next(&mut self) -> Result<Option<Message<'a>>, Fault>
        ensures answer { answered result ≡ first (ahead self.old) }
        ensures after { self.new ≡ moved self.old }
        ensures rest { ahead self.new ≡ later (ahead self.old) }
        ensures lent { IfOk result (λ o. IfSome o (λ m. LentAt self.old.frame.ref_ptr.0 (self.old.place + self.old.frame.ref_ptr.1) m)) }
    {
        // one match: of the closures of `inspect_err` and `map` it is not proved what they leave in the reader
        match self.found() {
            Ok(Some(found)) => {
                self.place = found.next;
                self.left -= 1;
                Ok(Some(found.message))
            }
            Ok(None) => Ok(None),
            Err(fault) => {
                self.fault = Some(fault);
                Err(fault)
            }
        }
    }

    // The messages from here on, and then the fault, if there is one.
    pub fn messages(self) -> Messages<'a>
        ensures { items_left result ≡ items (ahead self.entry) }
    {
        Messages { reader: Some(self) }
    }
}

// The messages of a reader, and then its fault, once; there is no reader behind a fault.
#[derive(Drop)]
pub struct Messages<'a> {
    reader: Option<Reader<'a>>,
}

impl<'a> Iterator for Messages<'a> {
    type Item = Result<Message<'a>, Fault>;

    ghost next_gives = { YieldsFirstBy heard items_left };

    ghost remaining = { item_count items_left };

    fn next(&mut self) -> Option<Result<Message<'a>, Fault>> {
        let mut reader = self.reader.take()?;
        match reader.next() {
            Ok(message) => {
                self.reader = Some(reader);
                message.map(Ok)
            }
            Err(fault) => Some(Err(fault)),
        }
    }
}
