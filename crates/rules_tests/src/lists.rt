// What a ranked list takes, keeps and answers at the edges.
ghost use Rattle.std.specs.Prelude.{nat_lt};
ghost use Rattle.std.proofs.Common.{rules};

use ranked::{Fill, Rank, RankedList, Refusal};
use std::test::Fail;

// An entry to try the list with: a low rank is better, and the number tells it from the others.
#[derive(Clone, Copy)]
struct Entry {
    rank: u64,
    number: u64,
    size: u32,
    filled: u32,
}

impl Rank for Entry {
    ghost better = { λ x y. nat_lt x.rank y.rank };

    ghost apart = { Prim.search rules };

    ghost carries = { Prim.search rules };

    ghost levels = { Prim.search rules };

    fn beats(&self, other: &Entry) -> bool {
        self.rank < other.rank
    }
}

impl Fill for Entry {
    ghost size = { λ x. x.size };

    ghost fill = { λ x n. record { rank = x.rank; number = x.number; size = x.size; filled = n } };

    ghost keeps = { Prim.search rules };

    fn contracts(&self) -> u32 {
        self.size
    }

    fn filled(&self, n: u32) -> Entry {
        Entry { filled: n, ..*self }
    }
}

const NOTHING: Entry = Entry {
    rank: 0,
    number: 0,
    size: 0,
    filled: 0,
};

// An entry whose size is ten times its number.
fn numbered(rank: u64, number: u32) -> Entry {
    Entry {
        rank,
        number: u64::from(number),
        size: number.saturating_mul(10),
        filled: 0,
    }
}

// How many entries go into some places; a removed entry's place is used again.
#[test]
fn places(rt: HostRuntime) -> Result<(), Fail> {
    let cases = [(0, 0), (1, 1), (2, 2), (511, 511), (512, 512), (513, 512)];
    for (lent, room) in cases {
        let mut space = [NOTHING; 513];
        if lent > 513 {
            return Err(Fail::new("places past the space"));
        }
        let mut list = RankedList::new(&mut space[0..lent]);
        assert_eq!(rt; list.room(), room);
        assert!(rt; list.best().is_none());
        // a loop, since a closure of a chain is to change nothing
        let mut taken = 0usize;
        for number in 0..600u32 {
            if list.insert(numbered(u64::from(number % 7), number)).is_ok() {
                taken = taken.saturating_add(1);
            }
        }
        assert_eq!(rt; taken, room);
        assert_eq!(rt; list.len(), room);
        assert_eq!(rt; list.insert(numbered(0, 9)), Err(Refusal::NoFreePlace));
        assert!(rt; list.remove(room).is_none());
        assert_eq!(rt; list.remove(0).is_some(), room > 0);
        assert_eq!(rt; list.insert(numbered(9, 9)).is_ok(), room > 0);
        assert_eq!(rt; list.len(), room);
    }
    assert_eq!(rt; Refusal::NoFreePlace.number(), 7);
    Ok(())
}

// What a list is told; every step has all columns beside it, as the tables have them.
#[derive(Clone, Copy)]
enum Step {
    Insert,
    Remove,
    Replace,
}

// Takes a step; the number of the entry that went in or out, 0 where it was refused.
fn take(list: &mut RankedList<'_, Entry>, step: Step, at: usize, x: Entry) -> u64 {
    let answer = match step {
        Step::Insert => list.insert(x).ok().map(|()| x),
        Step::Remove => list.remove(at),
        Step::Replace => list.replace(at, x),
    };
    number_of(answer)
}

// The number of an entry, 0 where there is none, as the tables have it.
fn number_of(entry: Option<Entry>) -> u64 {
    entry.map_or(0, |x| x.number)
}

// Entries behind the level ones, gaps that close, and changes in place: a step with its place, rank and number, the number
// that it answers, and the numbers afterwards.
#[test]
fn order(rt: HostRuntime) {
    let cases = [
        (Step::Insert, 0, 5, 1, 1, [1, 0, 0, 0, 0]),
        (Step::Insert, 0, 3, 2, 2, [2, 1, 0, 0, 0]),
        (Step::Insert, 0, 5, 3, 3, [2, 1, 3, 0, 0]),
        (Step::Insert, 0, 1, 4, 4, [4, 2, 1, 3, 0]),
        (Step::Insert, 0, 3, 5, 5, [4, 2, 5, 1, 3]),
        (Step::Insert, 0, 3, 6, 0, [4, 2, 5, 1, 3]),
        (Step::Remove, 5, 0, 0, 0, [4, 2, 5, 1, 3]),
        (Step::Remove, 1, 0, 0, 2, [4, 5, 1, 3, 0]),
        (Step::Insert, 0, 3, 6, 6, [4, 5, 6, 1, 3]),
        (Step::Replace, 1, 3, 7, 5, [4, 7, 6, 1, 3]),
        (Step::Replace, 1, 2, 8, 0, [4, 7, 6, 1, 3]),
        (Step::Replace, 1, 4, 8, 0, [4, 7, 6, 1, 3]),
        (Step::Replace, 5, 5, 8, 0, [4, 7, 6, 1, 3]),
        (Step::Remove, 4, 0, 0, 3, [4, 7, 6, 1, 0]),
        (Step::Remove, 0, 0, 0, 4, [7, 6, 1, 0, 0]),
    ];
    let mut space = [NOTHING; 5];
    let mut list = RankedList::new(&mut space);
    for (step, at, rank, number, answer, numbers) in cases {
        assert_eq!(rt; take(&mut list, step, at, numbered(rank, number)), answer);
        // by place, since a place is what the list is asked for
        for (i, expected) in numbers.iter().enumerate() {
            assert_eq!(rt; number_of(list.get(i)), *expected);
        }
    }
    assert_eq!(rt; number_of(list.best()), 7);
}

// The levels of a list, their totals, and fills that stop at a level's end.
#[test]
fn levels(rt: HostRuntime) {
    let cases = [
        (0, 1, 40),
        (1, 2, 70),
        (2, 1, 50),
        (3, 2, 40),
        (5, 0, 0),
        (600, 0, 0),
    ];
    let mut space = [NOTHING; 5];
    let mut list = RankedList::new(&mut space);
    for (rank, number) in [(5, 1), (3, 2), (5, 3), (1, 4), (3, 5)] {
        assert_eq!(rt; list.insert(numbered(rank, number)), Ok(()));
    }
    for (at, size, total) in cases {
        assert_eq!(rt; list.level(at).len(), size);
        assert_eq!(rt; list.level_total(at), total);
    }
    list.fill_level(1, &[11, 12, 13, 14]);
    list.fill_level(3, &[15]);
    list.fill_level(5, &[16]);
    for (x, filled) in list.entries().iter().zip(&[0, 11, 12, 15, 0]) {
        assert_eq!(rt; x.filled, *filled);
    }
}
