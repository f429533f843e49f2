// A start book read and, where it is accepted, run: what is told of it, with any memories, or with those of the bench.
#![tactic(auto)]

ghost use Rattle.std.specs.Prelude.{◌≡◌};
ghost use Rattle.pages.specs.Answer.{book_run};
ghost use Rattle.pages.specs.Bench.{bench_of};

use asked::BUDGET;
use manual::{Answer, Refusal};

// The book read and, where it is accepted, run, with memories of any size and any budget.
#[tactic(auto, unfolding(pages::specs::Answer::book_run))]
pub fn run_book(book: &[u8], flash: &[u8], ram: &mut [u8], tags: &mut [u8], budget: u32) -> Answer
    ensures answer { result ≡ (book_run budget book.now flash.now ram.old tags.old).answer }
    ensures ram { ram.new ≡ (book_run budget book.now flash.now ram.old tags.old).ram }
    ensures tags { tags.new ≡ (book_run budget book.now flash.now ram.old tags.old).tags }
{
    match enter::read_book(book, flash.len(), ram, tags) {
        Err(refusal) => told::refusing(refusal),
        Ok(m) => asked::answer_of(machine::run(m, flash, ram, tags, budget)),
    }
}

// The bench's answer in the RAM and the tags that are lent; 20, and nothing changed, where they are of another size than its own
// or a file is too long.
#[tactic(auto, unfolding(pages::specs::Bench::bench_of))]
pub fn bench(book: &[u8], flash: &[u8], ram: &mut [u8], tags: &mut [u8]) -> Answer
    ensures answer { result ≡ (bench_of book.now flash.now ram.old tags.old).answer }
    ensures ram { ram.new ≡ (bench_of book.now flash.now ram.old tags.old).ram }
    ensures tags { tags.new ≡ (bench_of book.now flash.now ram.old tags.old).tags }
{
    if !asked::bench_fits(book.len(), ram.len()) {
        return told::refusing(Refusal::Sizes);
    }
    run_book(book, flash, ram, tags, BUDGET)
}
