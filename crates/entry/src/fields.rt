// What one word writes.
ghost use Rattle.std.specs.Prelude.{◌≡◌};
ghost use Rattle.entry.specs.Values.{letter_of, number_of, condition_of};

use feed::is_letter;
use text::{hex_digit, whole};

// An auction letter.
pub fn letter_of(word: &[u8]) -> Option<u8>
    ensures { result ≡ letter_of word.now }
{
    match word {
        [b] if is_letter(*b) => Some(*b),
        _ => None,
    }
}

// A whole number of 32 bits.
pub fn number_of(word: &[u8]) -> Option<u32>
    ensures { result ≡ number_of word.now }
{
    u32::try_from(whole(word)?).ok()
}

// A condition: one byte from 0x21 to 0x7E, or any byte as 0xNN.
pub fn condition_of(word: &[u8]) -> Option<u8>
    ensures { result ≡ condition_of word.now }
{
    match word {
        [b] if b.is_ascii_graphic() => Some(*b),
        [b'0', b'x', high, low] => Some(hex_digit(*high)? * 16 + hex_digit(*low)?),
        _ => None,
    }
}
