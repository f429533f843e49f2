// The reader of a start book: it holds the book and its place in it (01, "The start book").
#![tactic(auto)]

ghost use Rattle.std.specs.Prelude.{◌≡◌};
ghost use Rattle.pages.specs.Record.{head_at};

use manual::Refusal;
use pages::Body;

#[derive(Clone, Copy)]
pub struct Reader<'a> {
    pub book: &'a [u8],
    pub at: usize,
}

impl<'a> Reader<'a> {
    // A reader at a place of a book.
    pub fn new(book: &'a [u8], at: usize) -> Self
        ensures { (result.book ≡ book.entry) × (result.at ≡ at) }
    {
        Reader { book, at }
    }

    // The record that begins at the reader's place.
    pub fn next_record(self) -> Result<Option<Body>, Refusal>
        ensures { result ≡ head_at self.entry.book.now self.entry.at }
    {
        record::head_at(self.book, self.at)
    }
}

// The record that a reader finds at a place, for a walk that keeps the place as a number.
pub fn record_at(book: &[u8], at: usize) -> Result<Option<Body>, Refusal>
    ensures { result ≡ head_at book.now at }
{
    Reader::new(book, at).next_record()
}
