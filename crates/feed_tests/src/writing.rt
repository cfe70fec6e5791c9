// What the writer takes and refuses at the edges.
use crate::sample::{FRAME, SUMMARY, UPDATE};
use feed::{Encode, Summary, Update, put};
use std::process::Abort;
use std::test::Fail;
use writer::{Refusal, add, frame, start};

// The sample frame, written.
#[test]
fn sample(rt: HostRuntime) {
    let mut buffer = [0xffu8; 200];
    assert_eq!(rt; start(&mut buffer), Ok(()));
    assert_eq!(rt; add(&mut buffer, &UPDATE), Ok(()));
    assert_eq!(rt; add(&mut buffer, &SUMMARY), Ok(()));
    assert!(rt; frame(&buffer) == FRAME.as_slice());
}

// Whether a frame can be begun in so many bytes, and whether a message then goes into it.
fn begins_and_takes(size: usize, message: &impl Encode) -> Result<(bool, bool), Fail> {
    let mut space = [0u8; 72];
    let buffer = space.get_mut(..size).ok_or("a size past the space")?;
    let begins = start(buffer).is_ok();
    Ok((begins, add(buffer, message).is_ok()))
}

// Buffers of some sizes: which can be begun in, and which take a summary or an update.
#[test]
fn buffers(rt: HostRuntime) -> Result<(), Fail> {
    let sizes = [
        (0, false, false, false),
        (7, false, false, false),
        (8, true, false, false),
        (34, true, false, false),
        (35, true, true, false),
        (71, true, true, false),
        (72, true, true, true),
    ];
    for (size, begins, summed, updated) in sizes {
        assert_eq!(rt; begins_and_takes(size, &SUMMARY)?, (begins, summed));
        assert_eq!(rt; begins_and_takes(size, &UPDATE)?, (begins, updated));
    }
    Ok(())
}

// Adds `updates` updates and then summaries until one is refused; how many summaries were taken.
fn filled(rt: &impl Abort, buffer: &mut [u8], updates: usize) -> Result<usize, Fail> {
    assert_eq!(rt; start(buffer), Ok(()));
    for _ in 0..updates {
        assert_eq!(rt; add(buffer, &UPDATE), Ok(()));
    }
    let taken = (0..100).position(|_| add(buffer, &SUMMARY).is_err());
    Ok(taken.ok_or("no end")?)
}

// The longest frames: 6 updates and 41 summaries are 1,499 bytes; 17 updates and 15 summaries would be 1,501.
#[test]
fn longest(rt: HostRuntime) -> Result<(), Fail> {
    let mut buffer = [0u8; 2000];
    assert_eq!(rt; filled(&rt, &mut buffer, 6)?, 41);
    assert_eq!(rt; frame(&buffer).len(), 1499);
    assert_eq!(rt; add(&mut buffer, &SUMMARY), Err(Refusal::NoRoom));
    assert_eq!(rt; filled(&rt, &mut buffer, 17)?, 14);
    assert_eq!(rt; frame(&buffer).len(), 1474);
    assert_eq!(rt; filled(&rt, &mut buffer, 0)?, 55);
    assert_eq!(rt; frame(&buffer).len(), 1493);
    assert_eq!(rt; filled(&rt, &mut buffer, 23)?, 0);
    assert_eq!(rt; frame(&buffer).len(), 1480);
    Ok(())
}

// A summary behind a frame that ends just before it: whether it is taken, by the frame's length and the buffer's.
#[test]
fn last_bytes(rt: HostRuntime) -> Result<(), Fail> {
    let lengths = [
        (1472, 2000, true),
        (1473, 2000, true),
        (1474, 2000, false),
        (1473, 1500, true),
        (1473, 1499, false),
        (1474, 1501, false),
        (8, 35, true),
        (9, 35, false),
        (7, 35, false),
    ];
    for (length, size, taken) in lengths {
        let mut space = [0u8; 2000];
        let buffer = space.get_mut(..size).ok_or("a size past the space")?;
        let [low, high] = u16::to_le_bytes(length);
        put(buffer, 0, &[low, high, 1])?;
        assert_eq!(rt; add(buffer, &SUMMARY).is_ok(), taken);
        let after = usize::from(length) + if taken { 27 } else { 0 };
        assert_eq!(rt; frame(buffer).len(), after.min(size));
    }
    Ok(())
}

fn with_symbol(byte: u8) -> Summary {
    Summary {
        symbol: [b'A', byte, b' ', b' ', b' ', b' ', b' ', b' '],
        ..SUMMARY
    }
}

// Unfit fields, and that want of room comes first.
#[test]
fn fields(rt: HostRuntime) {
    let bytes = [
        (0x1f, false),
        (0x20, true),
        (0x7e, true),
        (0x7f, false),
        (0xff, false),
    ];
    for (byte, fit) in bytes {
        let mut buffer = [0u8; 35];
        assert_eq!(rt; start(&mut buffer), Ok(()));
        assert_eq!(rt; with_symbol(byte).is_fit(), fit);
        assert_eq!(rt; add(&mut buffer, &with_symbol(byte)).is_ok(), fit);
    }
    let letters = [
        (b'G', true),
        (b'O', true),
        (b'H', true),
        (b'V', true),
        (b'F', false),
        (b'g', false),
        (0, false),
    ];
    for (letter, fit) in letters {
        let mut buffer = [0u8; 72];
        assert_eq!(rt; start(&mut buffer), Ok(()));
        let update = Update {
            auction: letter,
            ..UPDATE
        };
        assert_eq!(rt; add(&mut buffer, &update).is_ok(), fit);
    }
    let mut buffer = [0u8; 34];
    assert_eq!(rt; start(&mut buffer), Ok(()));
    assert_eq!(rt; add(&mut buffer, &with_symbol(0x1f)), Err(Refusal::NoRoom));
    let mut buffer = [0u8; 35];
    assert_eq!(rt; start(&mut buffer), Ok(()));
    assert_eq!(rt; add(&mut buffer, &with_symbol(0x1f)), Err(Refusal::Unfit));
    let mut begun = [0u8; 35];
    begun[0] = 8;
    assert!(rt; buffer == begun);
}

// Buffers that hold no frame, and a frame that counts as many messages as a header can.
#[test]
fn no_frame(rt: HostRuntime) {
    assert_eq!(rt; add(&mut [0u8; 100], &SUMMARY), Err(Refusal::NoRoom));
    assert_eq!(rt; add(&mut [0xffu8; 100], &SUMMARY), Err(Refusal::NoRoom));
    let mut buffer = [0u8; 100];
    assert_eq!(rt; start(&mut buffer), Ok(()));
    buffer[2] = 255;
    assert_eq!(rt; add(&mut buffer, &SUMMARY), Err(Refusal::NoRoom));
    assert_eq!(rt; frame(&[]).len(), 0);
    assert_eq!(rt; frame(&[5]).len(), 1);
    assert_eq!(rt; frame(&[1, 0, 9]).len(), 1);
}

#[test]
fn numbers(rt: HostRuntime) {
    assert_eq!(rt; Refusal::NoRoom.number(), 35);
    assert_eq!(rt; Refusal::Unfit.number(), 36);
}
