// What a ranked list is asked and told.
ghost use Rattle.std.specs.Prelude.{◌≡◌, ◌+◌, ◌-◌, ◌<◌, ◌≤◌, min, true, [], length, take, if◌then◌else◌, Ok, Err, nat_lt, not};
ghost use Rattle.std.specs.List.{remove, insert, slice_get, prefix_len};
ghost use Rattle.ranked.specs.Order.{entered, in_its_place, replaceable, replaced, level};
ghost use Rattle.ranked.specs.View.{entries, room, count, free};

use super::{MOST_ENTRIES, RankedList};
use crate::rank::Rank;
use crate::refusal::Refusal;

// Puts x at a place, and moves what stands from there on up by one; the last place is free.
fn put_in<T: Copy>(places: &mut [T], at: usize, x: T)
    requires { at < length places.old }
    ensures { places.new ≡ insert (take (length places.old - 1) places.old) at x }
{
    let last = places.len() - 1;
    places[last] = x;
    places[at..].rotate_right(1);
}

// Closes the gap that an entry leaves; the last place is free.
fn close_up<T: Copy>(entries: &mut [T], at: usize)
    requires { at < length entries.old }
    ensures { take (length entries.old - 1) entries.new ≡ remove entries.old at }
{
    entries[at..].rotate_left(1);
}

// Whether neither is better; they need not be equal.
fn are_level<T: Rank>(x: &T, y: &T) -> bool
    ensures { result ≡ level T.better x.now y.now }
{
    !x.beats(y) && !y.beats(x)
}

impl<'a, T: Rank + Copy> RankedList<'a, T> {
    // An empty list over lent places.
    pub fn new(places: &'a mut [T]) -> RankedList<'a, T>
        ensures empty { entries result ≡ [] }
        ensures room { room result ≡ min 512 (length places.old) }
    {
        RankedList { places, len: 0 }
    }

    // How many entries there are.
    pub fn len(&self) -> usize
        ensures { result ≡ count self.now }
    {
        self.entries().len()
    }

    // How many entries there may be.
    pub fn room(&self) -> usize
        ensures { result ≡ room self.now }
    {
        self.places.len().min(MOST_ENTRIES)
    }

    // The entries, the best first.
    pub fn entries(&self) -> &[T]
        ensures { result.now ≡ entries self.now }
    {
        &self.places[..self.len]
    }

    // The entry at a place, counted from the best.
    pub fn get(&self, at: usize) -> Option<T>
        ensures { result ≡ slice_get (entries self.now) at }
    {
        self.entries().get(at).copied()
    }

    pub fn best(&self) -> Option<T>
        ensures { result ≡ slice_get (entries self.now) 0 }
    {
        self.entries().first().copied()
    }

    // How many entries stand before x: all that are better or level.
    fn spot(&self, x: &T) -> usize
        ensures within { result ≤ count self.now }
        ensures there { result ≡ prefix_len (λ y. not (T.better x.now y)) (entries self.now) }
    {
        self.entries().partition_point(|y| !x.beats(y))
    }

    // Puts x behind all that are better or level; refused, and nothing is changed, where no place is free.
    #[tactic(auto, using(crate::proofs::Moves::entered_front))]
    pub fn insert(&mut self, x: T) -> Result<(), Refusal>
        ensures answer { result ≡ (if free self.old then Ok tt else Err Refusal.NoFreePlace) }
        ensures after { entries self.new ≡ (if free self.old then entered T.better x (entries self.old) else entries self.old) }
        ensures behind_all_that_are_better_or_level { free self.old ≡ true → entries self.new ≡ in_its_place T.better x (entries self.old) }
        ensures count { count self.new ≡ (if free self.old then count self.old + 1 else count self.old) }
        ensures room { room self.new ≡ room self.old }
    {
        if self.len >= self.room() {
            return Err(Refusal::NoFreePlace);
        }
        let at = self.spot(&x);
        put_in(&mut self.places[..self.len + 1], at, x);
        self.len += 1;
        Ok(())
    }

    // Takes out the entry at a place, closes the gap and answers the entry; none, and nothing is changed, past the last.
    pub fn remove(&mut self, at: usize) -> Option<T>
        ensures answer { result ≡ slice_get (entries self.old) at }
        ensures after { entries self.new ≡ remove (entries self.old) at }
        ensures count { count self.new ≡ (if nat_lt at (count self.old) then count self.old - 1 else count self.old) }
        ensures room { room self.new ≡ room self.old }
    {
        let gone = self.get(at)?;
        close_up(&mut self.places[..self.len], at);
        self.len -= 1;
        Some(gone)
    }

    // Puts x in the place of an entry that is level with it and answers that one; none, and nothing is changed, where no such entry is there.
    pub fn replace(&mut self, at: usize, x: T) -> Option<T>
        ensures answer { result ≡ replaceable T.better (entries self.old) at x }
        ensures after { entries self.new ≡ replaced T.better (entries self.old) at x }
        ensures count { count self.new ≡ count self.old }
        ensures room { room self.new ≡ room self.old }
    {
        let old = self.get(at)?;
        if !are_level(&old, &x) {
            return None;
        }
        self.places[at] = x;
        Some(old)
    }
}
