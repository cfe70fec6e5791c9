// What can be wrong with a frame.
ghost use Rattle.std.specs.Prelude.{◌≡◌, Some};
ghost use Rattle.feed.specs.Faults.{number_of, layer_of, reason_text, layer_text};

use std::fmt;

// The part of a frame that a fault lies in.
#[derive(Clone, Copy, Debug, PartialEq)]
pub enum Layer {
    Frame,
    Message,
    Field,
}

impl fmt::Display for Layer {
    ghost output = { λ l. Some (layer_text l) };

    fn fmt<W: fmt::Write>(&self, f: &mut fmt::Formatter<W>) -> fmt::Result {
        f.write_str(match self {
            Layer::Frame => "frame",
            Layer::Message => "message",
            Layer::Field => "field",
        })
    }
}

#[derive(Clone, Copy, Debug, PartialEq)]
pub enum Reason {
    // under 8 bytes, or the header's length is not the number of bytes given
    Header,
    // a message's length byte is absent, below 2, or leads past the frame
    Length,
    // a message of a known type is shorter than its layout
    Short,
    // a byte of the symbol is not printable
    Symbol,
    // the auction letter is none of G, O, H and V
    Letter,
    // bytes are left over after the counted messages
    Leftover,
}

impl fmt::Display for Reason {
    ghost output = { λ r. Some (reason_text r) };

    fn fmt<W: fmt::Write>(&self, f: &mut fmt::Formatter<W>) -> fmt::Result {
        f.write_str(match self {
            Reason::Header => "unfit header",
            Reason::Length => "unfit length",
            Reason::Short => "shorter than its layout",
            Reason::Symbol => "unfit symbol",
            Reason::Letter => "unfit auction letter",
            Reason::Leftover => "bytes left over",
        })
    }
}

// A fault, and the byte of the frame at which it lies.
#[derive(Clone, Copy, Debug, PartialEq)]
pub struct Fault {
    pub reason: Reason,
    pub place: usize,
}

impl Fault {
    // The number by which the fault is published. By a match, since two reasons share one.
    pub fn number(&self) -> u8
        ensures { result ≡ number_of self.now.reason }
    {
        match self.reason {
            Reason::Header => 30,
            Reason::Length => 31,
            Reason::Short => 32,
            Reason::Symbol | Reason::Letter => 33,
            Reason::Leftover => 34,
        }
    }

    // The part of the frame that the fault lies in.
    pub fn layer(&self) -> Layer
        ensures { result ≡ layer_of self.now.reason }
    {
        match self.reason {
            Reason::Header | Reason::Leftover => Layer::Frame,
            Reason::Length | Reason::Short => Layer::Message,
            Reason::Symbol | Reason::Letter => Layer::Field,
        }
    }
}
