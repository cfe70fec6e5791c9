// Symbols in eight bytes, with blanks behind them.
ghost use Rattle.std.specs.Prelude.{◌≡◌};
ghost use Rattle.text.specs.Symbol.{is_symbol, padded_of, trimmed_of, SymbolReadsBack};

// Whether `word` is one to eight bytes, each from 0x21 to 0x7E.
fn is_symbol(word: &[u8]) -> bool
    ensures { result ≡ is_symbol word.now }
{
    matches!(word.len(), 1..=8) && word.iter().all(|b| b.is_ascii_graphic())
}

// A word of one to eight bytes, each from 0x21 to 0x7E, with blanks behind it up to eight; none for another word.
#[tactic(auto, using(crate::proofs::Padding::not_symbol, crate::proofs::Padding::padded_some))]
pub fn padded(word: &[u8]) -> Option<[u8; 8]>
    ensures { result ≡ padded_of word.now }
{
    if !is_symbol(word) {
        return None;
    }
    let mut symbol = [b' '; 8];
    symbol[..word.len()].copy_from_slice(word);
    Some(symbol)
}

// A symbol without its trailing blanks.
pub fn trimmed(symbol: &[u8]) -> &[u8]
    ensures { result.now ≡ trimmed_of symbol.now }
{
    // the library's trimming takes other blanks off as well
    let mut rest = symbol;
    while let [front @ .., b' '] = rest {
        rest = front;
    }
    rest
}

// `trimmed` gives back the word that `padded` took.
#[tactic(auto, using(crate::proofs::Padding::symbol_back))]
pub fn symbol_reads_back()
    ensures { SymbolReadsBack }
{}
