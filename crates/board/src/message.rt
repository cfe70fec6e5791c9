// The lines of the feed's messages.
ghost use Rattle.std.specs.Prelude.{Some};
ghost use Rattle.feed.specs.Shown.{notice_of};
ghost use Rattle.board.specs.Lines.{series_text, update_line, summary_line, unknown_line, message_line};

use crate::word::{Condition, Letter, Word};
use feed::{Message, Summary, Update, byte_at};
use std::fmt;
use text::{Price, trimmed};

// A symbol without its trailing blanks, and an auction letter.
#[derive(Clone, Copy)]
struct Series([u8; 8], u8);

impl fmt::Display for Series {
    ghost output = { λ s. Some (series_text s.0 s.1) };

    #[tactic(auto, using(crate::proofs::Lining::series))]
    fn fmt<W: fmt::Write>(&self, f: &mut fmt::Formatter<W>) -> fmt::Result {
        write!(f, "{} {}", Word(trimmed(&self.0)), Letter(self.1))
    }
}

// How a series would open now.
#[derive(Clone, Copy)]
pub struct UpdateLine(pub Update);

impl fmt::Display for UpdateLine {
    ghost output = { λ l. Some (update_line l.0) };

    fn fmt<W: fmt::Write>(&self, f: &mut fmt::Formatter<W>) -> fmt::Result {
        let u = &self.0;
        write!(
            f,
            "update {} reference {} buy {} sell {}",
            Series(u.symbol, u.auction),
            Price(u.reference),
            u.buy,
            u.sell
        )?;
        write!(
            f,
            " indicative {} auction-only {} condition {}",
            Price(u.indicative),
            Price(u.auction_only),
            Condition(u.condition)
        )?;
        write!(
            f,
            " bid {} offer {} offset {}",
            Price(u.bid),
            Price(u.offer),
            u.offset
        )
    }
}

// How a series opened.
#[derive(Clone, Copy)]
pub struct SummaryLine(pub Summary);

impl fmt::Display for SummaryLine {
    ghost output = { λ l. Some (summary_line l.0) };

    #[tactic(auto, using(crate::proofs::Lining::summary_line_lem))]
    fn fmt<W: fmt::Write>(&self, f: &mut fmt::Formatter<W>) -> fmt::Result {
        let s = &self.0;
        write!(
            f,
            "summary {} price {} contracts {} offset {}",
            Series(s.symbol, s.auction),
            Price(s.price),
            s.contracts,
            s.offset
        )
    }
}

// A message of an unknown type: the type, and the number of its bytes.
#[derive(Clone, Copy)]
pub struct UnknownLine<'a>(pub &'a [u8]);

impl fmt::Display for UnknownLine<'_> {
    ghost output = { λ l. Some (unknown_line l.0.now) };

    fn fmt<W: fmt::Write>(&self, f: &mut fmt::Formatter<W>) -> fmt::Result {
        let kind = byte_at(self.0, 1);
        write!(f, "unknown 0x{kind:02X}, {} bytes", self.0.len())
    }
}

// A message by the line of its variant.
#[derive(Clone, Copy)]
pub struct MessageLine<'a>(pub Message<'a>);

impl fmt::Display for MessageLine<'_> {
    ghost output = { λ l. Some (message_line (notice_of l.0)) };

    fn fmt<W: fmt::Write>(&self, f: &mut fmt::Formatter<W>) -> fmt::Result {
        match self.0 {
            Message::Update(u) => write!(f, "{}", UpdateLine(u)),
            Message::Summary(s) => write!(f, "{}", SummaryLine(s)),
            Message::Unknown(m) => write!(f, "{}", UnknownLine(m)),
        }
    }
}
