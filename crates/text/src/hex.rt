// Bytes in hexadecimal digits.
ghost use Rattle.std.specs.Prelude.{◌≡◌, ◌<◌, [], ◌∷◌, ◌++◌, is_ok, if◌then◌else◌, Some, string_bytes, MatchResult};
ghost use Rattle.std.specs.Char.{digit_char};
ghost use Rattle.text.specs.Hex.{hex_digit_of, is_hex_pairs, hex_bytes, hex_pair, hex_text, HexAnswer, Keeps, HexReadsBack};
ghost use Rattle.text.specs.declared.hex.HexError.TheVariants.{Alloc};

use std::alloc::AllocError;
use std::fmt;

// The value of a hex digit of either case; none for another byte.
pub fn hex_digit(b: u8) -> Option<u8>
    ensures { result ≡ hex_digit_of b }
{
    // by arms, so that both cases are seen
    let value = match b {
        b'0'..=b'9' => b - b'0',
        b'A'..=b'F' => b - b'A' + 10,
        b'a'..=b'f' => b - b'a' + 10,
        _ => return None,
    };
    Some(value)
}

// Why a word gives no bytes.
#[derive(Clone, Copy, Debug)]
pub enum HexError<'a> {
    // the word is no pairs of hex digits
    NotHex(&'a [u8]),
    // memory is short
    Alloc(AllocError),
}

impl From<AllocError> for HexError<'_> {
    ghost from_gives = { λ e answer. answer ≡ Alloc e };

    fn from(e: AllocError) -> Self {
        HexError::Alloc(e)
    }
}

// Whether `word` is pairs of hex digits, and nothing else.
fn is_pairs(word: &[u8]) -> bool
    ensures { result ≡ is_hex_pairs word.now }
{
    word.len() % 2 == 0 && word.iter().all(|b| b.is_ascii_hexdigit())
}

// Puts the bytes that pairs of hex digits write behind `out`.
// Where `word` is no such pairs, and where memory is short, `out` keeps what it has.
pub fn push_word<'a>(out: &mut Vec<u8>, word: &'a [u8]) -> Result<(), HexError<'a>>
    ensures answer { HexAnswer word.now result }
    ensures items { out.new.items ≡ out.old.items ++ (if is_ok result then hex_bytes word.now else []) }
{
    if !is_pairs(word) {
        return Err(HexError::NotHex(word));
    }
    out.reserve(word.len() / 2)?;
    for [high, low] in word.as_chunks::<2>().0 {
        out.push_reserved(hex_digit(*high).unwrap() * 16 + hex_digit(*low).unwrap());
    }
    Ok(())
}

// A hex digit in lower case, as a text.
fn digit_text(d: u8) -> &'static str
    requires { d < 16 }
    ensures { result.now ≡ digit_char d ∷ [] }
{
    match d {
        0 => "0",
        1 => "1",
        2 => "2",
        3 => "3",
        4 => "4",
        5 => "5",
        6 => "6",
        7 => "7",
        8 => "8",
        9 => "9",
        10 => "a",
        11 => "b",
        12 => "c",
        13 => "d",
        14 => "e",
        _ => "f",
    }
}

// Bytes as two lower-case hex digits each, with one blank between them.
#[derive(Clone, Copy)]
pub struct Hex<'a>(pub &'a [u8]);

impl fmt::Display for Hex<'_> {
    ghost output = { λ h. Some (hex_text h.0.now) };

    fn fmt<W: fmt::Write>(&self, f: &mut fmt::Formatter<W>) -> fmt::Result {
        // the bytes are copied out: of one behind a reference the check has no bound
        let &[first, ref others @ ..] = self.0 else {
            return Ok(());
        };
        f.write_str(digit_text(first / 16))?;
        f.write_str(digit_text(first % 16))?;
        for &b in others {
            f.write_str(" ")?;
            f.write_str(digit_text(b / 16))?;
            f.write_str(digit_text(b % 16))?;
        }
        Ok(())
    }
}

// A hex digit in lower case, as a character: a `String` takes one faster than a text.
fn digit_char(d: u8) -> char
    requires { d < 16 }
    ensures value { result ≡ digit_char d }
    ensures ascii { result < 128 }
{
    char::from(if d < 10 { b'0' + d } else { b'a' + (d - 10) })
}

// Puts a byte's two hex digits behind `out`.
fn push_byte(out: &mut String, b: u8) -> Result<(), AllocError>
    ensures { MatchResult result (λ _. string_bytes out.new ≡ string_bytes out.old ++ hex_pair b) (λ _. Keeps (string_bytes out.old) (string_bytes out.new)) }
{
    out.push(digit_char(b / 16))?;
    out.push(digit_char(b % 16))
}

// Puts what `Hex` shows behind `out`. Where memory is short, `out` still begins with what it had.
pub fn push_hex(out: &mut String, bytes: &[u8]) -> Result<(), AllocError>
    ensures { MatchResult result (λ _. string_bytes out.new ≡ string_bytes out.old ++ hex_text bytes.now) (λ _. Keeps (string_bytes out.old) (string_bytes out.new)) }
{
    // digit by digit: where a `write!` fails, what `out` holds is not said
    let &[first, ref others @ ..] = bytes else {
        return Ok(());
    };
    push_byte(out, first)?;
    for &b in others {
        out.push(' ')?;
        push_byte(out, b)?;
    }
    Ok(())
}

// What `Hex` shows, `push_word` reads back word by word.
#[tactic(auto, using(crate::proofs::Reading::reads_back))]
pub fn hex_reads_back()
    ensures { HexReadsBack }
{}
