// One record of a start book: where its body lies (01, "The start book").
#![tactic(auto)]

ghost use Rattle.std.specs.Prelude.{◌≡◌};
ghost use Rattle.pages.specs.Record.{head_at};

use manual::Refusal;
use pages::Body;

// The record that begins at a place, none at the book's end: a length of two bytes and a body.
#[tactic(auto, using(std::proofs::lemmas::Bool::Decides::nat_tests), unfolding(pages::specs::Record::body_at, pages::specs::Record::head_at))]
pub fn head_at(book: &[u8], at: usize) -> Result<Option<Body>, Refusal>
    ensures { result ≡ head_at book.now at }
{
    if book.len() <= at {
        return Ok(None);
    }
    if book.len() - at < 2 {
        return Err(Refusal::Cut);
    }
    let start = at + 2;
    let bytes = num::load_be(&book[at..start]) as usize;
    if bytes == 0 || book.len() - start < bytes {
        return Err(Refusal::Cut);
    }
    Ok(Some(Body { start, bytes }))
}
