// What can be wrong with a line.
ghost use Rattle.std.specs.Prelude.{Some};
ghost use Rattle.entry.specs.Phrases.{phrase_of};

use std::fmt;

#[derive(Clone, Copy)]
pub enum Trouble {
    // the line begins with no known verb
    Verb,
    // the line ends before its last field
    Missing,
    // a word stands behind the last field
    Surplus,
    // the word does not fit its field
    Symbol,
    Letter,
    Price,
    Number,
    Condition,
}

// What to say of the word that the trouble is with.
impl fmt::Display for Trouble {
    ghost output = { λ trouble. Some (phrase_of trouble) };

    fn fmt<W: fmt::Write>(&self, f: &mut fmt::Formatter<W>) -> fmt::Result {
        f.write_str(match self {
            Trouble::Verb => "is neither update, summary nor send",
            Trouble::Missing => "lacks words behind it",
            Trouble::Surplus => "is one word too many",
            Trouble::Symbol => "is not a symbol of 1 to 8 printable characters",
            Trouble::Letter => "is not an auction letter (G, O, H or V)",
            Trouble::Price => "is not a price in dollars with at most four decimals",
            Trouble::Number => "is not a whole number up to 4294967295",
            Trouble::Condition => "is not a condition: one character, or 0xNN",
        })
    }
}

// A word of the line, and the trouble with it.
#[derive(Clone, Copy)]
pub struct Problem<'a> {
    pub word: &'a [u8],
    pub trouble: Trouble,
}
