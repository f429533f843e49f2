// A start book read: judged whole before anything is written (01, "The start book").
#![tactic(auto)]

ghost use Rattle.std.specs.Prelude.{◌≡◌, length, Ok, Err};
ghost use Rattle.std.specs.Result.{MatchResult};
ghost use Rattle.pages.specs.Entering.{zero_machine};
ghost use Rattle.pages.specs.Enter.{judged, read_book};

use manual::{Machine, Refusal};

// The verdict on a book, for memories of these sizes: 20 before all others.
#[tactic(auto, unfolding(pages::specs::Enter::judged))]
fn judge(book: &[u8], flash: usize, ram: usize, tags: usize) -> Result<(), Refusal>
    ensures { result ≡ judged book.now flash ram tags }
{
    if !accept::sizes_fit(flash, ram, tags) {
        return Err(Refusal::Sizes);
    }
    book::check(book, ram)
}

// Reads a start book: an accepted one sets every register, byte and tag; a refused one changes no byte and no tag.
#[tactic(auto, unfolding(pages::specs::Enter::read_book))]
pub fn read_book(
    book: &[u8],
    flash: usize,
    ram: &mut [u8],
    tags: &mut [u8],
) -> Result<Machine, Refusal>
    ensures verdict { MatchResult result (λ m. judged book.now flash (length ram.old) (length tags.old) ≡ Ok tt) (λ r. judged book.now flash (length ram.old) (length tags.old) ≡ Err r) }
    ensures machine { MatchResult result (λ m. m ≡ (read_book book.now flash ram.old tags.old).machine) (λ r. (read_book book.now flash ram.old tags.old).machine ≡ zero_machine) }
    ensures ram { ram.new ≡ (read_book book.now flash ram.old tags.old).ram }
    ensures tags { tags.new ≡ (read_book book.now flash ram.old tags.old).tags }
{
    judge(book, flash, ram.len(), tags.len())?;
    ram.fill(0);
    tags.fill(0);
    Ok(entering::enter_all(book, ram, tags))
}
