// The levels of a ranked list.
ghost use Rattle.std.specs.Prelude.{◌≡◌, ◌-◌, ◌<◌, ◌≤◌, length, take, Some};
ghost use Rattle.ranked.specs.Level.{level_at, level_with, fills, filled_from, filled_level};
ghost use Rattle.ranked.specs.Totals.{total};
ghost use Rattle.ranked.specs.View.{entries, count, room};
ghost use Rattle.std.specs.List.{between, slice_get};

use super::RankedList;
use crate::rank::{Fill, Rank};

// The contracts of some entries.
#[tactic(auto, using(crate::proofs::Levels::total_is))]
fn sum<T: Fill>(entries: &[T]) -> u64
    requires { length entries.now ≤ 512 }
    ensures { result ≡ total T.size entries.now }
{
    entries.iter().map(|x| u64::from(x.contracts())).sum()
}

// Fills entries, one share each, as far as both go.
fn fill<T: Fill + Copy>(entries: &mut [T], shares: &[u32])
    ensures { entries.new ≡ fills T.fill entries.old shares.now }
{
    // not `iter_mut().zip(shares)`: a proof is not told what is written through `iter_mut` under `zip`
    for (i, x) in entries.iter_mut().enumerate() {
        let Some(share) = shares.get(i) else {
            break;
        };
        *x = x.filled(*share);
    }
}

// The same for the entries from `at` up to `end`.
#[tactic(auto, using(crate::proofs::Fills::filled_part))]
fn fill_part<T: Fill + Copy>(entries: &mut [T], at: usize, end: usize, shares: &[u32])
    requires { (at ≤ end) × (end ≤ length entries.old) }
    ensures { entries.new ≡ filled_from T.fill at (take (end - at) shares.now) entries.old }
{
    fill(&mut entries[at..end], shares);
}

impl<'a, T: Rank + Copy> RankedList<'a, T> {
    // The place behind the level of the entry at a place. It is looked for from there on in steps that double, so that
    // a short level costs little however long the list is.
    fn level_end(&self, at: usize, first: &T) -> usize
        requires { Some first.now ≡ slice_get (entries self.now) at }
        ensures within { (at < result) × (result ≤ count self.now) }
        ensures there { between at result (entries self.now) ≡ level_at T.better at (entries self.now) }
    {
        let entries = self.entries();
        let mut last = at;
        let mut step = 1;
        while last + step < entries.len() && !first.beats(&entries[last + step]) {
            last += step;
            step *= 2;
        }
        let end = entries.len().min(last + step);
        last + 1 + entries[last + 1..end].partition_point(|y| !first.beats(y))
    }

    // The level from a place on: the entry there and what is level with it; empty past the last.
    pub fn level(&self, at: usize) -> &[T]
        ensures value { result.now ≡ level_at T.better at (entries self.now) }
        ensures all_that_is_level { result.now ≡ level_with T.better at (entries self.now) }
    {
        match self.get(at) {
            Some(first) => &self.entries()[at..self.level_end(at, &first)],
            None => &[],
        }
    }
}

impl<'a, T: Fill + Copy> RankedList<'a, T> {
    // The contracts of the level from a place on.
    pub fn level_total(&self, at: usize) -> u64
        ensures { result ≡ total T.size (level_at T.better at (entries self.now)) }
    {
        sum(self.level(at))
    }

    // Fills the level from a place on, one share each in its order, as far as both go.
    pub fn fill_level(&mut self, at: usize, shares: &[u32])
        ensures after { entries self.new ≡ filled_level T.better T.fill at shares.now (entries self.old) }
        ensures count { count self.new ≡ count self.old }
        ensures room { room self.new ≡ room self.old }
    {
        if let Some(first) = self.get(at) {
            let end = self.level_end(at, &first);
            fill_part(&mut self.places[..self.len], at, end, shares);
        }
    }
}
