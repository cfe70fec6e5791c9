// What outside markets answer and refuse at the edges.
ghost use Rattle.market.specs.Market.{Side};

use away::{AwayBid, AwayBoard, AwayOffer};
use market::{CutOff, LivePair, NoMarket, OutsideMarket, Prices, Refusal, Tighter, composite};

// Two constants, since a constant has one type.
const NO_BID: AwayBid = AwayBid {
    exchange: 0,
    price: 0,
};

const NO_OFFER: AwayOffer = AwayOffer {
    exchange: 0,
    price: 0,
};

// Prices at the edges: a pair takes them or keeps what it had.
#[test]
fn prices(rt: HostRuntime) {
    let cases = [
        (0, false),
        (99, false),
        (100, true),
        (101, false),
        (150, false),
        (200, true),
        (499_999_900, true),
        (500_000_000, true),
        (500_000_100, false),
        (u64::MAX, false),
    ];
    for (price, fit) in cases {
        let answer = if fit { Ok(()) } else { Err(Refusal::Unfit) };
        let mut pair = LivePair::new();
        assert_eq!(rt; pair.ask(), (None, None));
        assert_eq!(rt; pair.set(Some(300), None), Ok(()));
        assert_eq!(rt; pair.set(Some(price), Some(700)), answer);
        let kept = if fit {
            (Some(price), Some(700))
        } else {
            (Some(300), None)
        };
        assert_eq!(rt; pair.ask(), kept);
        assert_eq!(rt; pair.set(None, Some(price)), answer);
        pair.clear();
        assert_eq!(rt; pair.ask(), (None, None));
    }
    assert_eq!(rt; Refusal::NoFreePlace.number(), 7);
    assert_eq!(rt; Refusal::Unfit.number(), 41);
}

// The letters of a board's bids, a blank where there is none, as the table has it.
fn letter_at(board: &AwayBoard<'_>, at: usize) -> u8 {
    board.bids().get(at).map_or(b' ', |x| x.exchange)
}

// Bids set on a board of three places, a price of 0 to clear, as the table has it: the exchange, the price, the answer, the letters afterwards, and the best.
#[test]
fn board_of_three(rt: HostRuntime) {
    let no_place = Err(Refusal::NoFreePlace);
    let unfit = Err(Refusal::Unfit);
    let cases = [
        (b'A', 300, Ok(()), *b"A  ", Some(300)),
        (b'Z', 300, Ok(()), *b"AZ ", Some(300)),
        (b'A', 300, Ok(()), *b"ZA ", Some(300)),
        (b'@', 300, unfit, *b"ZA ", Some(300)),
        (b'[', 300, unfit, *b"ZA ", Some(300)),
        (b'a', 300, unfit, *b"ZA ", Some(300)),
        (b'B', 350, unfit, *b"ZA ", Some(300)),
        (b'B', 400, Ok(()), *b"BZA", Some(400)),
        (b'C', 500, no_place, *b"BZA", Some(400)),
        (b'C', 350, no_place, *b"BZA", Some(400)),
        (b'@', 500, no_place, *b"BZA", Some(400)),
        (b'B', 350, unfit, *b"BZA", Some(400)),
        (b'Z', 500, Ok(()), *b"ZBA", Some(500)),
        (b'Z', 100, Ok(()), *b"BAZ", Some(400)),
        (b'A', 400, Ok(()), *b"BAZ", Some(400)),
        (b'B', 400, Ok(()), *b"ABZ", Some(400)),
        (b'C', 0, Ok(()), *b"ABZ", Some(400)),
        (b'@', 0, unfit, *b"ABZ", Some(400)),
        (b'A', 0, Ok(()), *b"BZ ", Some(400)),
        (b'B', 0, Ok(()), *b"Z  ", Some(100)),
        (b'Z', 0, Ok(()), *b"   ", None),
    ];
    let mut bids = [NO_BID; 3];
    let mut offers = [NO_OFFER; 0];
    let mut board = AwayBoard::new(&mut bids, &mut offers);
    for (exchange, price, answer, letters, best) in cases {
        let told = if price == 0 {
            board.clear_bid(exchange)
        } else {
            board.set_bid(exchange, price)
        };
        assert_eq!(rt; told, answer);
        assert_eq!(rt; [0, 1, 2].map(|at| letter_at(&board, at)), letters);
        assert_eq!(rt; board.ask(), (best, None));
    }
    assert_eq!(rt; board.set_offer(b'A', 300), no_place);
    assert_eq!(rt; board.clear_offer(b'A'), Ok(()));
}

// Both sides of a board, and piles of layers over it, lent and not.
#[test]
fn piles(rt: HostRuntime) {
    let mut bids = [NO_BID; 2];
    let mut offers = [NO_OFFER; 2];
    let mut board = AwayBoard::new(&mut bids, &mut offers);
    for (exchange, bid, offer) in [(b'N', 11_000, 12_500), (b'P', 11_500, 12_000)] {
        assert_eq!(rt; board.set_bid(exchange, bid), Ok(()));
        assert_eq!(rt; board.set_offer(exchange, offer), Ok(()));
    }
    assert_eq!(rt; board.offers().len(), 2);
    let mut live = LivePair::new();
    assert_eq!(rt; live.set(None, Some(11_900)), Ok(()));
    let mut pile = Tighter {
        one: CutOff::new(&board),
        other: Tighter {
            one: NoMarket,
            other: live,
        },
    };
    assert_eq!(rt; pile.ask(), (Some(11_500), Some(11_900)));
    assert_eq!(rt;
        composite(Some(11_600), None, &pile),
        (Some(11_600), Some(11_900))
    );
    assert_eq!(rt;
        composite(None, Some(11_800), &&pile),
        (Some(11_500), Some(11_800))
    );
    pile.one.close();
    assert_eq!(rt; pile.ask(), (None, Some(11_900)));
    let mut shut = CutOff::new(CutOff::new(pile));
    assert_eq!(rt; shut.ask(), (None, Some(11_900)));
    shut.close();
    assert_eq!(rt; composite(None, None, &shut), (None, None));
}

// A pile that holds the board itself, whose prices are set and cleared through it.
#[test]
fn pile_by_value(rt: HostRuntime) {
    let mut bids = [NO_BID; 2];
    let mut offers = [NO_OFFER; 2];
    let mut live = LivePair::new();
    assert_eq!(rt; live.set(None, Some(11_900)), Ok(()));
    let mut pile = Tighter {
        one: CutOff::new(AwayBoard::new(&mut bids, &mut offers)),
        other: live,
    };
    assert_eq!(rt; pile.one.below.set_bid(b'N', 11_500), Ok(()));
    assert_eq!(rt; pile.one.below.set_offer(b'N', 12_000), Ok(()));
    assert_eq!(rt; pile.ask(), (Some(11_500), Some(11_900)));
    pile.other.clear();
    assert_eq!(rt; pile.ask(), (Some(11_500), Some(12_000)));
    assert_eq!(rt; pile.one.below.clear_offer(b'N'), Ok(()));
    assert_eq!(rt; pile.ask(), (Some(11_500), None));
    pile.one.close();
    assert_eq!(rt; composite(None, Some(11_800), &pile), (None, Some(11_800)));
}

// What a market of any kind answers.
fn prices_of(market: &dyn OutsideMarket) -> Prices
    ensures bid { Side result.0 }
    ensures offer { Side result.1 }
{
    market.ask()
}

// A market whose kind is not known answers as it does, and its prices are known to be fit.
#[test]
fn any_kind(rt: HostRuntime) {
    let mut live = LivePair::new();
    assert_eq!(rt; prices_of(&live), (None, None));
    assert_eq!(rt; live.set(Some(300), Some(700)), Ok(()));
    let pile = Tighter {
        one: CutOff::new(NoMarket),
        other: live,
    };
    assert_eq!(rt; prices_of(&pile), (Some(300), Some(700)));
}
