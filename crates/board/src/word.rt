// Bytes as text: each printable byte as its character, any other in hex.
ghost use Rattle.std.specs.Prelude.{◌≡◌, ◌<◌, [], ◌∷◌, Some};
ghost use Rattle.board.specs.Lines.{capital_digit, letter_text, word_text, condition_text};

use std::fmt;

// A hex digit in upper case.
fn digit_text(d: u8) -> &'static str
    requires { d < 16 }
    ensures { result.now ≡ capital_digit d ∷ [] }
{
    match d {
        0 => "0",
        1 => "1",
        2 => "2",
        3 => "3",
        4 => "4",
        5 => "5",
        6 => "6",
        7 => "7",
        8 => "8",
        9 => "9",
        10 => "A",
        11 => "B",
        12 => "C",
        13 => "D",
        14 => "E",
        _ => "F",
    }
}

// A byte as its character if it is printable, else as `\xNN`.
#[derive(Clone, Copy)]
pub(crate) struct Letter(pub(crate) u8);

impl fmt::Display for Letter {
    ghost output = { λ l. Some (letter_text l.0) };

    fn fmt<W: fmt::Write>(&self, f: &mut fmt::Formatter<W>) -> fmt::Result {
        let b = self.0;
        match b {
            0x20..=0x7e => f.write_char(char::from(b)),
            _ => {
                f.write_str("\\x")?;
                f.write_str(digit_text(b / 16))?;
                f.write_str(digit_text(b % 16))
            }
        }
    }
}

// Bytes as text: each printable one as its character, any other as `\xNN`.
#[derive(Clone, Copy)]
pub struct Word<'a>(pub &'a [u8]);

impl fmt::Display for Word<'_> {
    ghost output = { λ w. Some (word_text w.0.now) };

    fn fmt<W: fmt::Write>(&self, f: &mut fmt::Formatter<W>) -> fmt::Result {
        for &b in self.0 {
            write!(f, "{}", Letter(b))?;
        }
        Ok(())
    }
}

// A condition's letter: its character if it is visible, else as `0xNN`.
// It is not shown as a `Letter`: a blank alone would not be seen, and `0xNN` is how a board's entry writes it.
#[derive(Clone, Copy)]
pub struct Condition(pub u8);

impl fmt::Display for Condition {
    ghost output = { λ c. Some (condition_text c.0) };

    fn fmt<W: fmt::Write>(&self, f: &mut fmt::Formatter<W>) -> fmt::Result {
        let b = self.0;
        if b.is_ascii_graphic() {
            f.write_char(char::from(b))
        } else {
            write!(f, "0x{b:02X}")
        }
    }
}
