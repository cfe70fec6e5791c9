// Prices in ten-thousandths of a dollar, and their text.
ghost use Rattle.std.specs.Prelude.{◌≡◌, Some};
ghost use Rattle.text.specs.Price.{decimals_of, dollars_of, price_text, PriceReadsBack};

use crate::number::whole;
use crate::word::position;
use std::fmt;

// The ten-thousandths that one to four digits behind a point write; none for anything else.
fn decimals(digits: &[u8]) -> Option<u64>
    ensures { result ≡ decimals_of digits.now }
{
    let unit = match digits.len() {
        1 => 1000,
        2 => 100,
        3 => 10,
        4 => 1,
        _ => return None,
    };
    whole(digits)?.checked_mul(unit)
}

// The price that a word such as 1.95 writes, in ten-thousandths of a dollar: digits, or digits, a point and one to
// four digits; none for anything else, or for a price past 64 bits.
pub fn dollars(word: &[u8]) -> Option<u64>
    ensures { result ≡ dollars_of word.now }
{
    match position(word, b'.') {
        None => whole(word)?.checked_mul(10_000),
        Some(point) => whole(&word[..point])?
            .checked_mul(10_000)?
            .checked_add(decimals(&word[point + 1..])?),
    }
}

// A price in ten-thousandths of a dollar, shown in dollars with two decimals, or four where it needs them.
#[derive(Clone, Copy)]
pub struct Price(pub u64);

impl fmt::Display for Price {
    ghost output = { λ p. Some (price_text p.0) };

    fn fmt<W: fmt::Write>(&self, f: &mut fmt::Formatter<W>) -> fmt::Result {
        let whole = self.0 / 10_000;
        let cents = self.0 / 100 % 100;
        let rest = self.0 % 100;
        if rest == 0 {
            write!(f, "{whole}.{cents:02}")
        } else {
            write!(f, "{whole}.{cents:02}{rest:02}")
        }
    }
}

// `dollars` reads back what a price shows.
#[tactic(auto, using(crate::proofs::Returning::price_back))]
pub fn price_reads_back()
    ensures { PriceReadsBack }
{}
