// The entries of a board.
ghost use Rattle.std.specs.Prelude.{◌≡◌};
ghost use Rattle.entry.specs.Entries.{update_in, summary_in, send_in, entry_of};
ghost use Rattle.entry.specs.Shown.{line_of, taken, answered};

use crate::problem::{Problem, Trouble};
use crate::words::Fields;
use feed::{Summary, Update};
use text::{Words, uncommented};

// A message for the frame that is being filled, or the order to send it.
#[derive(Clone, Copy)]
pub enum Entry {
    Update(Update),
    Summary(Summary),
    Send,
}

// The fields of an update.
#[tactic(auto, using(crate::proofs::Taking::then_is), unfolding(crate::specs::Entries::update_in))]
fn update<'a>(fields: &mut Fields<'a>) -> Result<Entry, Problem<'a>>
    ensures { taken result (line_of fields.new) ≡ update_in (line_of fields.old) }
{
    let update = Update {
        symbol: fields.symbol()?,
        auction: fields.letter()?,
        reference: fields.price()?,
        buy: fields.number()?,
        sell: fields.number()?,
        indicative: fields.price()?,
        auction_only: fields.price()?,
        condition: fields.condition()?,
        bid: fields.price()?,
        offer: fields.price()?,
        offset: fields.number()?,
    };
    fields.end()?;
    Ok(Entry::Update(update))
}

// The fields of a summary.
#[tactic(auto, using(crate::proofs::Taking::then_is), unfolding(crate::specs::Entries::summary_in))]
fn summary<'a>(fields: &mut Fields<'a>) -> Result<Entry, Problem<'a>>
    ensures { taken result (line_of fields.new) ≡ summary_in (line_of fields.old) }
{
    let summary = Summary {
        symbol: fields.symbol()?,
        auction: fields.letter()?,
        price: fields.price()?,
        contracts: fields.number()?,
        offset: fields.number()?,
    };
    fields.end()?;
    Ok(Entry::Summary(summary))
}

// A send has no fields.
#[tactic(auto, using(crate::proofs::Taking::then_is), unfolding(crate::specs::Entries::send_in))]
fn send<'a>(fields: &mut Fields<'a>) -> Result<Entry, Problem<'a>>
    ensures { taken result (line_of fields.new) ≡ send_in (line_of fields.old) }
{
    fields.end()?;
    Ok(Entry::Send)
}

// What a line says, up to a `#`: a verb and its fields, or nothing. The first problem from the left counts.
#[tactic(auto, using(crate::proofs::Spelling::is_send, crate::proofs::Spelling::is_update, crate::proofs::Spelling::is_summary), unfolding(crate::specs::Entries::entry_of))]
pub fn parse(line: &[u8]) -> Result<Option<Entry>, Problem<'_>>
    ensures { answered result ≡ entry_of line.now }
{
    let mut rest = Words(uncommented(line));
    let Some(verb) = rest.next() else {
        return Ok(None);
    };
    let mut fields = Fields { verb, rest };
    let entry = match verb {
        b"update" => update(&mut fields)?,
        b"summary" => summary(&mut fields)?,
        b"send" => send(&mut fields)?,
        _ => {
            return Err(Problem {
                word: verb,
                trouble: Trouble::Verb,
            });
        }
    };
    Ok(Some(entry))
}
