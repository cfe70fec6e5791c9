// The words of a line, taken one by one.
ghost use Rattle.std.specs.Prelude.{◌≡◌, ℕ, List, Option};
ghost use Rattle.entry.specs.Fields.{word_in, field_in, symbol_in, letter_in, price_in, number_in, condition_in, end_in};
ghost use Rattle.entry.specs.Shown.{line_of, taken, word_taken};

use crate::fields::{condition_of, letter_of, number_of};
use crate::problem::{Problem, Trouble};
use text::{Words, dollars, padded};

// A line's verb, and the words that no field has taken.
#[derive(Drop)]
pub struct Fields<'a> {
    pub verb: &'a [u8],
    pub rest: Words<'a>,
}

impl<'a> Fields<'a> {
    // The next word; a line that lacks it is a problem of its verb.
    #[tactic(auto, unfolding(crate::specs::Fields::word_in))]
    fn word(&mut self) -> Result<&'a [u8], Problem<'a>>
        ensures { word_taken result (line_of self.new) ≡ word_in (line_of self.old) }
    {
        self.rest.next().ok_or(Problem {
            word: self.verb,
            trouble: Trouble::Missing,
        })
    }

    // The next word as the value that it writes; a word that writes none is a problem.
    // The kinds of fields have names below, so that no entry can pair a reading with another's trouble.
    #[tactic(auto, using(crate::proofs::Taking::then_is))]
    fn field<T, F: FnOnce(&'a [u8]) -> Option<T> + Drop>(
        &mut self,
        value_of: F,
        trouble: Trouble,
    ) -> Result<T, Problem<'a>>
        requires { F.IsAlwaysCallable value_of }
        ensures { (read : List ℕ → Option T) → ((word : _) (o : _) → F.post value_of word o → o ≡ read word.now) → taken result (line_of self.new) ≡ field_in read trouble (line_of self.old) }
    {
        let word = self.word()?;
        value_of(word).ok_or(Problem { word, trouble })
    }

    // The next word as a symbol.
    #[tactic(auto, unfolding(crate::specs::Fields::symbol_in))]
    pub fn symbol(&mut self) -> Result<[u8; 8], Problem<'a>>
        ensures { taken result (line_of self.new) ≡ symbol_in (line_of self.old) }
    {
        // a closure, since a function of another crate is not covered by name
        self.field(|word| padded(word), Trouble::Symbol)
    }

    // The next word as an auction letter.
    #[tactic(auto, unfolding(crate::specs::Fields::letter_in))]
    pub fn letter(&mut self) -> Result<u8, Problem<'a>>
        ensures { taken result (line_of self.new) ≡ letter_in (line_of self.old) }
    {
        self.field(letter_of, Trouble::Letter)
    }

    // The next word as a price, in ten-thousandths of a dollar.
    #[tactic(auto, unfolding(crate::specs::Fields::price_in))]
    pub fn price(&mut self) -> Result<u64, Problem<'a>>
        ensures { taken result (line_of self.new) ≡ price_in (line_of self.old) }
    {
        // a closure, as in `symbol`
        self.field(|word| dollars(word), Trouble::Price)
    }

    // The next word as a whole number of 32 bits.
    #[tactic(auto, unfolding(crate::specs::Fields::number_in))]
    pub fn number(&mut self) -> Result<u32, Problem<'a>>
        ensures { taken result (line_of self.new) ≡ number_in (line_of self.old) }
    {
        self.field(number_of, Trouble::Number)
    }

    // The next word as a condition.
    #[tactic(auto, unfolding(crate::specs::Fields::condition_in))]
    pub fn condition(&mut self) -> Result<u8, Problem<'a>>
        ensures { taken result (line_of self.new) ≡ condition_in (line_of self.old) }
    {
        self.field(condition_of, Trouble::Condition)
    }

    // Whether no word is left; one that is left is a problem.
    #[tactic(auto, unfolding(crate::specs::Fields::end_in))]
    pub fn end(&mut self) -> Result<(), Problem<'a>>
        ensures { taken result (line_of self.new) ≡ end_in (line_of self.old) }
    {
        match self.rest.next() {
            None => Ok(()),
            Some(word) => Err(Problem {
                word,
                trouble: Trouble::Surplus,
            }),
        }
    }
}
