// Shows frames, one a line in hex digits, as a readable board.
#![tactic(auto)]

ghost use Rattle.std.specs.Prelude.{◌≡◌, ◌++◌, OnOk};
ghost use Rattle.display.specs.Hexes.{words_in, bad_word, bytes_in, MatchesBadWord};

use board::{FaultLine, MessageLine, Word};
use feed::count_of;
use reader::Reader;
use std::io::{BufRead, BufReader};
use text::{HexError, Words, push_word, uncommented};

// Puts the bytes that a line writes in hex digits behind `frame`; the first word that is no hex is an error.
fn read_hex<'a>(frame: &mut Vec<u8>, line: &'a [u8]) -> Result<(), HexError<'a>>
    ensures bad { MatchesBadWord (bad_word (words_in line.now)) result }
    ensures bytes { OnOk result (frame.new.items ≡ frame.old.items ++ bytes_in (words_in line.now)) }
{
    for word in Words(uncommented(line)) {
        push_word(frame, word)?;
    }
    Ok(())
}

// Prints a frame's line, and a line for each of its messages and for its fault.
fn show(rt: &HostRuntime, number: u64, frame: &[u8]) -> anyhow::Result<()> {
    let length = frame.len();
    match count_of(frame) {
        Ok(count) => println!(rt; "frame {number}: {length} bytes, {count} messages")?,
        Err(_) => println!(rt; "frame {number}: {length} bytes")?,
    }
    for message in Reader::new(frame).messages() {
        match message {
            Ok(message) => println!(rt; "  {}", MessageLine(message))?,
            Err(fault) => println!(rt; "  {}", FaultLine(fault))?,
        }
    }
    Ok(())
}

fn run(rt: &HostRuntime) -> anyhow::Result<()> {
    let mut input = BufReader::new(rt.alloc(), rt.stdin())?;
    let mut line = Vec::new(rt.alloc());
    let mut frame = Vec::new(rt.alloc());
    let mut frames: u64 = 0;
    // every line into one Vec: `split` makes one for each, and takes twice the time over blank lines
    for number in 1..u64::MAX {
        line.clear();
        frame.clear();
        if input.read_until(b'\n', &mut line)? == 0 {
            break;
        }
        let text = match line.as_slice() {
            [text @ .., b'\n'] => text,
            text => text,
        };
        match read_hex(&mut frame, text) {
            Ok(()) if frame.is_empty() => {}
            Ok(()) => {
                frames = frames.saturating_add(1);
                show(rt, frames, frame.as_slice())?;
            }
            Err(HexError::NotHex(word)) => {
                println!(rt; "line {number}: not understood: {}", Word(word))?;
            }
            Err(HexError::Alloc(error)) => return Err(error.into()),
        }
    }
    Ok(())
}

fn main(rt: HostRuntime) -> anyhow::Result<()> {
    run(&rt)
}
