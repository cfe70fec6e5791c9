// One message of a frame, as a kind and numbers.
ghost use Rattle.std.specs.Prelude.{◌≡◌, ◌+◌, ◌-◌, ◌^◌, ◌<◌, ◌≤◌, ◌∷◌, ◌++◌, length, replicate};
ghost use Rattle.feed.specs.Faults.{number_of, layer_of};
ghost use Rattle.feed.specs.Frames.{frame_says};
ghost use Rattle.feed.specs.Layouts.{every_type};
ghost use Rattle.feed.specs.Shown.{notice_of};
ghost use Rattle.host.specs.Reads.{layer_number, bare_numbers, staying, notice_told, reader_for, ahead_for, told, GoesOn, kind_for, places_after};

use feed::{Fault, Layer, Message, byte_at};
use reader::Reader;

// How many numbers a call is told.
const NUMBERS: usize = 18;

// The places of a fault's number and layer.
const FAULT_NUMBER: usize = 16;

const FAULT_LAYER: usize = 17;

// What a call finds, by the numbers that C knows.
#[derive(Clone, Copy)]
enum Kind {
    End = 0,
    Update = 1,
    Summary = 2,
    Unknown = 3,
    Fault = 4,
    TooFew = 5,
}

// An answer: its kind and its numbers, 0 where it has none, since C knows no Option.
#[derive(Clone, Copy)]
struct Told {
    kind: Kind,
    numbers: [u64; NUMBERS],
}

// How a message stands in its frame: the place and the count to pass next, where it begins, and its length.
#[derive(Clone, Copy)]
struct Stand {
    next: u64,
    left: u8,
    place: u64,
    length: u8,
}

impl Stand {
    // The numbers of an answer with these fields: how it stands, the fields, and zeros behind them.
    fn numbers(&self, fields: &[u64]) -> [u64; NUMBERS]
        requires { length fields.now ≤ 14 }
        ensures { result ≡ (self.now.next ∷ self.now.left ∷ self.now.place ∷ self.now.length ∷ fields.now) ++ replicate (14 - length fields.now) 0 }
    {
        let mut numbers = [0; NUMBERS];
        numbers[..4].copy_from_slice(&[
            self.next,
            u64::from(self.left),
            self.place,
            u64::from(self.length),
        ]);
        numbers[4..4 + fields.len()].copy_from_slice(fields);
        numbers
    }
}

// By a match: a layer is another crate's, which has no number for it.
fn layer_number(layer: Layer) -> u64
    ensures { result ≡ layer_number layer }
{
    match layer {
        Layer::Frame => 1,
        Layer::Message => 2,
        Layer::Field => 3,
    }
}

// The numbers of a fault.
fn fault_numbers(at: Stand, fault: &Fault) -> [u64; NUMBERS]
    ensures { result ≡ bare_numbers at (number_of fault.now.reason) (layer_number (layer_of fault.now.reason)) }
{
    let mut numbers = at.numbers(&[]);
    numbers[FAULT_NUMBER] = u64::from(fault.number());
    numbers[FAULT_LAYER] = layer_number(fault.layer());
    numbers
}

// A message, told.
fn message_told(at: Stand, message: &Message<'_>) -> Told
    requires { at.place + 6 < 2 ^ 64 }
    ensures { result ≡ notice_told at (notice_of message.now) }
{
    match message {
        Message::Update(u) => Told {
            kind: Kind::Update,
            numbers: at.numbers(&[
                at.place + 6,
                u64::from(u.offset),
                u64::from(u.auction),
                u.reference,
                0,
                u64::from(u.buy),
                u64::from(u.sell),
                u.indicative,
                u.auction_only,
                u64::from(u.condition),
                u.bid,
                u.offer,
            ]),
        },
        Message::Summary(s) => Told {
            kind: Kind::Summary,
            numbers: at.numbers(&[
                at.place + 6,
                u64::from(s.offset),
                u64::from(s.auction),
                s.price,
                u64::from(s.contracts),
            ]),
        },
        Message::Unknown(_) => Told {
            kind: Kind::Unknown,
            numbers: at.numbers(&[]),
        },
    }
}

// A call: the frame, and the place and the count that are passed.
#[derive(Clone, Copy)]
struct Call<'a> {
    frame: &'a [u8],
    place: u64,
    left: u8,
}

impl<'a> Call<'a> {
    // The reader that the call goes on with; place 0 starts the frame, since C knows no Option and no message begins there.
    fn reader(&self) -> Reader<'a>
        ensures { result ≡ reader_for self.now.frame self.now.place self.now.left }
    {
        if self.place == 0 {
            Reader::new(self.frame)
        } else {
            Reader::resume(self.frame, self.place as usize, self.left)
        }
    }

    // Where there is no message, what to pass next is what was passed.
    fn stays_at(&self, at: usize) -> Stand
        ensures { result ≡ staying self.now.place self.now.left at }
    {
        Stand {
            next: self.place,
            left: self.left,
            place: at as u64,
            length: 0,
        }
    }

    // What the call is told.
    fn told(&self) -> Told
        ensures { result ≡ told self.now.frame self.now.place self.now.left }
    {
        let mut reader = self.reader();
        let (begin, _) = reader.position();
        let answer = reader.next();
        let (next, left) = reader.position();
        match answer {
            Ok(Some(message)) => {
                let at = Stand {
                    next: next as u64,
                    left,
                    place: begin as u64,
                    length: byte_at(self.frame, begin),
                };
                message_told(at, &message)
            }
            Ok(None) => Told {
                kind: Kind::End,
                numbers: self.stays_at(0).numbers(&[]),
            },
            Err(fault) => Told {
                kind: Kind::Fault,
                numbers: fault_numbers(self.stays_at(fault.place), &fault),
            },
        }
    }
}

// Reads one message of a frame into the first places of `numbers`.
#[unsafe(no_mangle)]
#[tactic(auto, using(crate::proofs::Onward::starts, crate::proofs::Onward::goes_on))]
pub extern "C" fn opening_read(frame: &[u8], place: u64, left: u8, numbers: &mut [u64]) -> u32
    ensures answer { result ≡ kind_for (told frame.entry place left) numbers.old }
    ensures after { numbers.new ≡ places_after (told frame.entry place left) numbers.old }
    ensures starts { ahead_for frame.entry 0 left ≡ frame_says every_type frame.now }
    ensures goes_on { GoesOn frame.entry place left }
{
    if numbers.len() < NUMBERS {
        return Kind::TooFew as u32;
    }
    let told = Call { frame, place, left }.told();
    numbers[..NUMBERS].copy_from_slice(&told.numbers);
    told.kind as u32
}
