// Whole numbers in decimal digits.
ghost use Rattle.std.specs.Prelude.{◌≡◌};
ghost use Rattle.text.specs.Number.{whole_of, appended_to};

// `n` with one more decimal digit behind it. The library's parsing wants text, and takes a sign.
fn appended(n: u64, b: u8) -> Option<u64>
    ensures { result ≡ appended_to n b }
{
    match b {
        b'0'..=b'9' => n.checked_mul(10)?.checked_add(u64::from(b - b'0')),
        _ => None,
    }
}

// The number that decimal digits write; none for no byte, a byte that is no digit, or a number past 64 bits.
pub fn whole(word: &[u8]) -> Option<u64>
    ensures { result ≡ whole_of word.now }
{
    if word.is_empty() {
        return None;
    }
    word.iter().try_fold(0, |n, b| appended(n, *b))
}
