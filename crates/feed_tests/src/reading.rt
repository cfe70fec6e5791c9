// What a reader answers at the edges.
use crate::sample::{FRAME, SUMMARY, UPDATE};
use feed::{Fault, Layer, Message, Reason, put};
use reader::Reader;
use std::process::Abort;
use std::test::Fail;

// The end of a frame: nothing, or a fault by its reason and place, as the tables have it.
type End = Option<(Reason, usize)>;

// Reads a frame to its end, checks the number of its messages and its end, and that the end stays.
fn reads_to(rt: &impl Abort, frame: &[u8], messages: usize, end: End) {
    let wanted = end.map(|(reason, place)| Fault { reason, place });
    // in one pass, which counts and keeps the fault
    let mut said = 0usize;
    let mut met = None;
    for message in Reader::new(frame).messages() {
        match message {
            Ok(_) => said = said.saturating_add(1),
            Err(fault) => met = Some(fault),
        }
    }
    assert_eq!(rt; said, messages);
    assert_eq!(rt; met, wanted);
    let mut reader = Reader::new(frame);
    for _ in 0..messages {
        assert!(rt; matches!(reader.next(), Ok(Some(_))));
    }
    let last = wanted.map_or(Ok(false), Err);
    for _ in 0..2 {
        assert_eq!(rt; reader.next().map(|message| message.is_some()), last);
    }
}

// A byte of the sample frame, what it is changed to, and what is then read.
#[derive(Clone, Copy)]
struct Case {
    at: usize,
    byte: u8,
    messages: usize,
    end: End,
}

fn ends(at: usize, byte: u8, messages: usize) -> Case {
    Case {
        at,
        byte,
        messages,
        end: None,
    }
}

fn breaks(at: usize, byte: u8, messages: usize, reason: Reason, place: usize) -> Case {
    Case {
        at,
        byte,
        messages,
        end: Some((reason, place)),
    }
}

fn try_all(rt: &impl Abort, cases: &[Case]) -> Result<(), Fail> {
    for case in cases {
        let mut frame = FRAME;
        put(&mut frame, case.at, &[case.byte])?;
        reads_to(rt, &frame, case.messages, case.end);
    }
    Ok(())
}

#[test]
fn frame_and_count(rt: HostRuntime) -> Result<(), Fail> {
    try_all(
        &rt,
        &[
            ends(0, 99, 2),
            breaks(0, 98, 0, Reason::Header, 0),
            breaks(0, 100, 0, Reason::Header, 0),
            breaks(1, 1, 0, Reason::Header, 0),
            breaks(2, 0, 0, Reason::Leftover, 8),
            breaks(2, 1, 1, Reason::Leftover, 72),
            breaks(2, 3, 2, Reason::Length, 99),
            breaks(2, 255, 2, Reason::Length, 99),
            ends(3, 7, 2),
            ends(4, 1, 2),
            ends(7, 255, 2),
        ],
    )
}

#[test]
fn lengths(rt: HostRuntime) -> Result<(), Fail> {
    try_all(
        &rt,
        &[
            breaks(8, 0, 0, Reason::Length, 8),
            breaks(8, 1, 0, Reason::Length, 8),
            breaks(8, 2, 0, Reason::Short, 8),
            breaks(8, 63, 0, Reason::Short, 8),
            ends(8, 64, 2),
            breaks(8, 91, 1, Reason::Length, 99),
            breaks(8, 92, 0, Reason::Length, 8),
            breaks(8, 255, 0, Reason::Length, 8),
            breaks(72, 26, 1, Reason::Short, 72),
            ends(72, 27, 2),
            breaks(72, 28, 1, Reason::Length, 72),
        ],
    )
}

#[test]
fn fields(rt: HostRuntime) -> Result<(), Fail> {
    try_all(
        &rt,
        &[
            breaks(14, 0x1f, 0, Reason::Symbol, 14),
            ends(14, 0x20, 2),
            ends(14, 0x7e, 2),
            breaks(14, 0x7f, 0, Reason::Symbol, 14),
            breaks(14, 0xff, 0, Reason::Symbol, 14),
            breaks(21, 0x1f, 0, Reason::Symbol, 14),
            breaks(85, 0x7f, 1, Reason::Symbol, 78),
            ends(22, b'G', 2),
            ends(22, b'O', 2),
            ends(22, b'H', 2),
            ends(22, b'V', 2),
            breaks(22, b'F', 0, Reason::Letter, 22),
            breaks(22, b'g', 0, Reason::Letter, 22),
            breaks(86, b'X', 1, Reason::Letter, 86),
            ends(55, 0, 2),
            ends(55, 0xff, 2),
            ends(9, 0x20, 2),
            ends(73, 0x20, 2),
        ],
    )
}

#[test]
fn headers(rt: HostRuntime) {
    reads_to(&rt, &[], 0, Some((Reason::Header, 0)));
    reads_to(&rt, &[7, 0, 0, 0, 0, 0, 0], 0, Some((Reason::Header, 0)));
    reads_to(&rt, &[8, 0, 0, 0, 0, 0, 0, 0], 0, None);
    reads_to(&rt, &[9, 0, 0, 0, 0, 0, 0, 0], 0, Some((Reason::Header, 0)));
    reads_to(&rt, &[8, 0, 1, 0, 0, 0, 0, 0], 0, Some((Reason::Length, 8)));
    reads_to(
        &rt,
        &[9, 0, 1, 0, 0, 0, 0, 0, 1],
        0,
        Some((Reason::Length, 8)),
    );
    reads_to(&rt, &[10, 0, 1, 0, 0, 0, 0, 0, 2, 0x20], 1, None);
    reads_to(
        &rt,
        &[9, 0, 0, 0, 0, 0, 0, 0, 1],
        0,
        Some((Reason::Leftover, 8)),
    );
}

// The symbol comes before the letter, and a short message before its fields.
#[test]
fn the_first_fault_counts(rt: HostRuntime) -> Result<(), Fail> {
    let mut frame = FRAME;
    put(&mut frame, 14, &[0x1f])?;
    put(&mut frame, 22, b"X")?;
    reads_to(&rt, &frame, 0, Some((Reason::Symbol, 14)));
    put(&mut frame, 8, &[63])?;
    reads_to(&rt, &frame, 0, Some((Reason::Short, 8)));
    put(&mut frame, 8, &[200])?;
    reads_to(&rt, &frame, 0, Some((Reason::Length, 8)));
    Ok(())
}

// Reads the sample's update and its summary from a frame.
fn reads_sample(rt: &impl Abort, frame: &[u8]) -> Result<(), Fail> {
    let mut reader = Reader::new(frame);
    match reader.next() {
        Ok(Some(Message::Update(update))) => assert_eq!(rt; update, UPDATE),
        _ => return Err(Fail::new("no update")),
    }
    match reader.next() {
        Ok(Some(Message::Summary(summary))) => assert_eq!(rt; summary, SUMMARY),
        _ => return Err(Fail::new("no summary")),
    }
    Ok(())
}

// The values of the sample, and the bytes of an unknown message.
#[test]
fn values(rt: HostRuntime) -> Result<(), Fail> {
    reads_sample(&rt, &FRAME)?;
    let mut reader = Reader::new(&[13, 0, 1, 0, 0, 0, 0, 0, 5, 0x20, 7, 8, 9]);
    match reader.next() {
        Ok(Some(Message::Unknown(bytes))) => {
            assert_eq!(rt; bytes.len(), 5);
            assert!(rt; bytes == [5, 0x20, 7, 8, 9].as_slice());
            Ok(())
        }
        _ => Err(Fail::new("no unknown message")),
    }
}

// An update grown to 72 bytes has the same values, and the summary behind it is found.
#[test]
fn grown(rt: HostRuntime) -> Result<(), Fail> {
    let mut frame = [0xaau8; 107];
    put(&mut frame, 0, &FRAME[0..72])?;
    put(&mut frame, 80, &FRAME[72..99])?;
    put(&mut frame, 0, &[107])?;
    put(&mut frame, 8, &[72])?;
    reads_sample(&rt, &frame)?;
    reads_to(&rt, &frame, 2, None);
    Ok(())
}

// A reader that goes on at a place: whether a message is there, and where the reader then stands.
#[test]
fn goes_on(rt: HostRuntime) {
    let cases = [
        (8, 2, true, (72, 1)),
        (72, 1, true, (99, 0)),
        (99, 0, false, (99, 0)),
        (99, 1, false, (99, 1)),
        (72, 0, false, (72, 0)),
        (9, 2, false, (9, 2)),
        (500, 1, false, (500, 1)),
    ];
    for (place, left, found, then) in cases {
        let mut reader = Reader::resume(&FRAME, place, left);
        assert_eq!(rt; reader.position(), (place, left));
        assert_eq!(rt; matches!(reader.next(), Ok(Some(_))), found);
        assert_eq!(rt; reader.position(), then);
    }
}

// Each fault's number and layer.
#[test]
fn numbers(rt: HostRuntime) {
    let all = [
        (Reason::Header, 30, Layer::Frame),
        (Reason::Length, 31, Layer::Message),
        (Reason::Short, 32, Layer::Message),
        (Reason::Symbol, 33, Layer::Field),
        (Reason::Letter, 33, Layer::Field),
        (Reason::Leftover, 34, Layer::Frame),
    ];
    for (reason, number, layer) in all {
        let fault = Fault { reason, place: 0 };
        assert_eq!(rt; fault.number(), number);
        assert_eq!(rt; fault.layer(), layer);
    }
}
