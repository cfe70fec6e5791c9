// Bytes in hex, put behind a text.
use text::push_hex;

// No byte puts nothing behind it, and three bytes stand apart by blanks.
#[test]
fn behind_a_text(rt: HostRuntime) {
    let mut text = String::new(rt.alloc());
    assert!(rt; text.push_str("at ").is_ok());
    assert!(rt; push_hex(&mut text, &[]).is_ok());
    assert!(rt; text.as_str() == "at ");
    assert!(rt; push_hex(&mut text, &[0, 0x9f, 0xff]).is_ok());
    assert!(rt; text.as_str() == "at 00 9f ff");
}
