// Registers as bytes taken as a machine again, and its book written.
#![tactic(auto)]

ghost use Rattle.std.specs.Prelude.{◌≡◌};
ghost use Rattle.pages.specs.Taking.{write_from};

use manual::Refusal;

// The registers read, as a book for no memory, and the book of that machine, RAM and tags written.
#[tactic(auto, unfolding(pages::specs::Taking::write_from))]
pub fn write_from(
    registers: &[u8],
    ram: &[u8],
    tags: &[u8],
    book: &mut [u8],
) -> Result<usize, Refusal>
    ensures value { result ≡ (write_from registers.now ram.now tags.now book.old).written }
    ensures book_after { book.new ≡ (write_from registers.now ram.now tags.now book.old).out }
{
    let m = enter::read_book(registers, 0, &mut [], &mut [])?;
    write::write_book(m, ram, tags, book)
}
