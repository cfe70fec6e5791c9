// The list: its entries are the first of the places that its owner lends.
ghost use Rattle.std.specs.Prelude.{◌≡◌, ◌≤◌, min, true, length, take};
ghost use Rattle.ranked.specs.Order.{in_rank};

mod calls;
mod levels;

use crate::rank::Rank;

// The most entries of a list, however many places are lent.
pub const MOST_ENTRIES: usize = 512;

#[derive(Drop)]
pub struct RankedList<'a, T: Rank> {
    places: &'a mut [T],
    // counted here, since the places are lent and may be more than are used
    len: usize,
    ghost fits: { len ≤ min 512 (length places.now) },
    ghost order: { in_rank T.better (take len places.now) ≡ true },
}
