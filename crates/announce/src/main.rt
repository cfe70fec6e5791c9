// Turns a board of messages, one a line, into frames, one a line in hex digits.
#![tactic(auto)]

ghost use Rattle.std.specs.Prelude.{◌≡◌, List, [], OnOk};
ghost use Rattle.feed.specs.Sending.{Sent};
ghost use Rattle.announce.specs.Sender.{Put};
ghost use Rattle.announce.specs.declared.LineError.TheVariants.{Unread, Refused, Failed};
ghost use Rattle.writer.specs.Refusals.{refused};
ghost use Rattle.writer.specs.Writing.{Holds, sent_after};

use board::Word;
use entry::{Entry, Problem, parse};
use feed::{Encode, byte_at};
use std::io::{BufRead, BufReader};
use text::Hex;
use writer::{MAX_FRAME, Refusal, add, frame, start};

// Why a line of the board is not done: it is not understood, its message is refused, or the program cannot go on.
#[derive(Drop)]
enum LineError<'a> {
    Unread(Problem<'a>),
    Refused(Refusal),
    Failed(anyhow::Error),
}

impl<'a> From<Problem<'a>> for LineError<'a> {
    ghost from_gives = { λ problem error. error ≡ Unread problem };

    fn from(problem: Problem<'a>) -> Self {
        LineError::Unread(problem)
    }
}

impl From<Refusal> for LineError<'_> {
    ghost from_gives = { λ refusal error. error ≡ Refused refusal };

    fn from(refusal: Refusal) -> Self {
        LineError::Refused(refusal)
    }
}

impl From<anyhow::Error> for LineError<'_> {
    ghost from_gives = { λ cause error. error ≡ Failed cause };

    fn from(cause: anyhow::Error) -> Self {
        LineError::Failed(cause)
    }
}

// The frame in the making, and what was done so far.
#[derive(Drop)]
struct Sender {
    buffer: [u8; MAX_FRAME],
    messages: u64,
    frames: u64,
    bad: u64,
}

impl Sender {
    // Begins the next frame.
    fn renew(&mut self)
        ensures { Holds [] self.new.buffer }
    {
        // never refused: the buffer is a whole frame
        let _ = start(&mut self.buffer);
    }

    // Prints the frame in the making, if it has a message, and begins the next.
    fn send(&mut self, rt: &HostRuntime) -> anyhow::Result<()>
        ensures { OnOk result (Holds [] self.new.buffer) }
    {
        // the buffer's own header counts its messages
        if byte_at(&self.buffer, 2) > 0 {
            println!(rt; "{}", Hex(frame(&self.buffer)))?;
            self.frames = self.frames.saturating_add(1);
        }
        self.renew();
        Ok(())
    }

    // Writes a message into the frame in the making.
    fn write<M: Encode>(&mut self, message: &M) -> Result<(), Refusal>
        ensures { (ms : List Sent) → Holds ms self.old.buffer → Holds (sent_after (refused result) ms (M.Encode.sent message.now)) self.new.buffer }
    {
        add(&mut self.buffer, message)?;
        self.messages = self.messages.saturating_add(1);
        Ok(())
    }

    // Writes a message, into the next frame where this one has no room for it.
    fn put<'a, M: Encode>(&mut self, rt: &HostRuntime, message: &M) -> Result<(), LineError<'a>>
        ensures { (ms : List Sent) → Holds ms self.old.buffer → Put result ms (M.Encode.sent message.now) self.new.buffer }
    {
        match self.write(message) {
            Err(Refusal::NoRoom) => {
                self.send(rt)?;
                Ok(self.write(message)?)
            }
            answer => Ok(answer?),
        }
    }

    // Does what one line of the board says.
    fn obey<'a>(&mut self, rt: &HostRuntime, line: &'a [u8]) -> Result<(), LineError<'a>> {
        match parse(line)? {
            None => Ok(()),
            Some(Entry::Send) => Ok(self.send(rt)?),
            Some(Entry::Update(update)) => self.put(rt, &update),
            Some(Entry::Summary(summary)) => self.put(rt, &summary),
        }
    }

    // Takes one line of the board, and prints what is wrong with it, if anything.
    fn take(&mut self, rt: &HostRuntime, number: u64, line: &[u8]) -> anyhow::Result<()> {
        match self.obey(rt, line) {
            Ok(()) => return Ok(()),
            Err(LineError::Unread(Problem { word, trouble })) => {
                eprintln!(rt; "line {number}: {} {trouble}", Word(word))?;
            }
            Err(LineError::Refused(refusal)) => {
                eprintln!(rt;
                    "line {number}: the message is refused, {}",
                    refusal.number()
                )?;
            }
            Err(LineError::Failed(error)) => return Err(error),
        }
        self.bad = self.bad.saturating_add(1);
        Ok(())
    }
}

fn run(rt: &HostRuntime) -> anyhow::Result<()> {
    let mut input = BufReader::new(rt.alloc(), rt.stdin())?;
    let mut line = Vec::new(rt.alloc());
    let mut sender = Sender {
        buffer: [0; MAX_FRAME],
        messages: 0,
        frames: 0,
        bad: 0,
    };
    sender.send(rt)?;
    // every line into one Vec: `split` makes one for each, and takes twice the time over blank lines
    for number in 1..u64::MAX {
        line.clear();
        if input.read_until(b'\n', &mut line)? == 0 {
            break;
        }
        let text = match line.as_slice() {
            [text @ .., b'\n'] => text,
            text => text,
        };
        sender.take(rt, number, text)?;
    }
    sender.send(rt)?;
    eprintln!(rt;
        "{} messages in {} frames, {} lines not understood",
        sender.messages, sender.frames, sender.bad
    )?;
    Ok(())
}

fn main(rt: HostRuntime) -> anyhow::Result<()> {
    run(&rt)
}
