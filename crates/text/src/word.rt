// Words of a line.
ghost use Rattle.std.specs.Prelude.{◌≡◌, [], ◌∷◌, IfNone, IfSome};
ghost use Rattle.std.specs.Iterator.{YieldsFirstRef, item_count};
ghost use Rattle.std.specs.List.{position};
ghost use Rattle.text.specs.Word.{is_byte, is_blank, uncommented_of, word_of, behind_word, word_list};

// Where the first `mark` stands, if there is one.
pub(crate) fn position(bytes: &[u8], mark: u8) -> Option<usize>
    ensures { result ≡ position (is_byte mark) bytes.now }
{
    bytes.iter().position(|b| *b == mark)
}

// The bytes before the first `#`; all where there is none.
pub fn uncommented(line: &[u8]) -> &[u8]
    ensures { result.now ≡ uncommented_of line.now }
{
    match position(line, b'#') {
        Some(comment) => &line[..comment],
        None => line,
    }
}

// Whether `b` stands between words: a space, a tab or a carriage return.
fn is_blank(b: u8) -> bool
    ensures { result ≡ is_blank b }
{
    matches!(b, b' ' | b'\t' | b'\r')
}

// The first word of a line and what stands behind it, both parts of the line; none where no word is left.
pub fn first_word(line: &[u8]) -> Option<(&[u8], &[u8])>
    ensures none { IfNone result (word_list line.now ≡ []) }
    ensures word { IfSome result (λ p. p.0.now ≡ word_of line.now) }
    ensures rest { IfSome result (λ p. p.1.now ≡ behind_word line.now) }
    ensures words { IfSome result (λ p. word_list line.now ≡ p.0.now ∷ word_list p.1.now) }
{
    let start = line.iter().position(|b| !is_blank(*b))?;
    let text = &line[start..];
    let end = text.iter().position(|b| is_blank(*b));
    Some(text.split_at(end.unwrap_or(text.len())))
}

// The words of a line, from left to right. Words stand between blanks: spaces, tabs and carriage returns.
// A type of its own, since no function hands out an unnamed iterator.
#[derive(Debug, Drop)]
pub struct Words<'a>(pub &'a [u8]);

impl<'a> Iterator for Words<'a> {
    type Item = &'a [u8];

    ghost next_gives = { YieldsFirstRef (λ w. word_list w.0.now) };

    ghost remaining = { item_count (λ w. word_list w.0.now) };

    fn next(&mut self) -> Option<&'a [u8]> {
        let (word, rest) = first_word(self.0)?;
        self.0 = rest;
        Some(word)
    }
}
