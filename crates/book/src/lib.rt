// A start book, walked by a reader from record to record: the first that is faulty decides (01, "The start book").
#![tactic(auto)]

ghost use Rattle.std.specs.Prelude.{◌≡◌};
ghost use Rattle.pages.specs.Book.{kind_of, key_of, in_order, step_at, check_book};

use manual::Refusal;
use pages::{Body, Entry, Record};

// What the order of a book goes by: kinds ascend, and within a kind the number or address does, strictly. The kind is a record's first byte.
#[derive(Clone, Copy, PartialEq, Eq, PartialOrd, Ord)]
pub struct Rank {
    pub kind: u8,
    pub key: u64,
}

// The rank before every record's.
pub const FIRST: Rank = Rank { kind: 0, key: 0 };

// The kind of a record, and its number or address.
pub fn rank_of(entry: Entry) -> Rank
    ensures { (result.kind ≡ kind_of entry) × (result.key ≡ key_of entry) }
{
    match entry {
        Entry::Capability(number, _) => Rank {
            kind: 1,
            key: u64::from(number),
        },
        Entry::General(number, _) => Rank {
            kind: 2,
            key: u64::from(number),
        },
        Entry::Line(address, _) => Rank {
            kind: 3,
            key: address,
        },
    }
}

#[tactic(auto, using(std::proofs::lemmas::Bool::Decides::nat_tests), unfolding(pages::specs::Book::in_order))]
fn in_order(before: Rank, next: Rank) -> bool
    ensures { result ≡ in_order before.kind before.key next.kind next.key }
{
    before < next
}

// The record at a place, after one of this rank, for a RAM of so many bytes: none at the book's end; 33 is the last test.
#[tactic(auto, unfolding(pages::specs::Book::step_at, pages::specs::Book::after_head, pages::specs::Book::after_entry))]
pub fn step_at(book: &[u8], ram: usize, at: usize, before: Rank) -> Result<Option<Record>, Refusal>
    ensures { result ≡ step_at book.now ram at before.kind before.key }
{
    let Some(Body { start, bytes }) = reader::record_at(book, at)? else {
        return Ok(None);
    };
    let end = start + bytes;
    let entry = entry::entry_in(&book[start..end], ram)?;
    if !in_order(before, rank_of(entry)) {
        return Err(Refusal::Order);
    }
    Ok(Some(Record { end, entry }))
}

// The verdict on a book, for a RAM of so many bytes: 30, then the first faulty record.
#[tactic(auto, using(std::proofs::lemmas::Bool::Decides::nat_tests), unfolding(pages::specs::Book::check_book))]
pub fn check(book: &[u8], ram: usize) -> Result<(), Refusal>
    ensures { result ≡ check_book book.now ram }
{
    if book.len() == 0 || book[0] != 1 {
        return Err(Refusal::Version);
    }
    let mut at = 1;
    let mut before = FIRST;
    while let Some(Record { end, entry }) = step_at(book, ram, at, before)? {
        at = end;
        before = rank_of(entry);
    }
    Ok(())
}
