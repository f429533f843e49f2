// Prints the bench's line of each book and flash of a table. Standard input is a file of the second program's for the bench
// (`second-cases 1 3000 OUT bench`): of each case a length of 4 bytes and its body, laid out as second/src/generate/format.rs says.
#![tactic(auto)]

ghost use Rattle.std.specs.Prelude.{replicate, OnOk};
ghost use Rattle.std.specs.Io.KnownBytes.{Appends};
ghost use Rattle.pages.specs.Bench.{bench_of};
ghost use Rattle.tables.specs.Lines.{answer_line};

use asked::{BENCH_RAM, BENCH_TAGS};
use std::io;
use std::io::{BufWriter, Write};

// More than the largest file, and than the body of the case that holds the most.
const SPACE: usize = 131_072;

// Where the book stands in a body: after the kind.
const BOOK: usize = 1;

// The bench's line of a book and a flash; the printer has the same three lines, too few for a library of their own.
fn run<W: Write>(to: &mut W, book: &[u8], flash: &[u8]) -> io::Result<()>
    ensures { OnOk result (Appends (W.contents to.old) (W.contents to.new)
        (answer_line (bench_of book.now flash.now (replicate 32768 0) (replicate 1024 0)).answer)) }
{
    let mut ram = [0; BENCH_RAM];
    let mut tags = [0; BENCH_TAGS];
    tables::print_answer(to, answer::bench(book, flash, &mut ram, &mut tags))
}

// The line of the case of this body; its book and its flash each take their size of these spaces.
fn run_case<W: Write>(
    to: &mut W,
    body: &[u8],
    book: &mut [u8],
    flash: &mut [u8],
) -> io::Result<()> {
    let (book, flash_at) = pieces::memory_in(book, body, BOOK);
    let (flash, _) = pieces::memory_in(flash, body, flash_at);
    run(to, book, flash)
}

fn main(rt: HostRuntime) -> io::Result<()> {
    let mut body = [0; SPACE];
    let mut book = [0; SPACE];
    let mut flash = [0; SPACE];
    let mut to = BufWriter::new(rt.alloc(), io::writer(&rt))?;
    pieces::each_case(&mut rt.reader(), &mut body, |case| {
        run_case(&mut to, case, &mut book, &mut flash)
    })?;
    to.flush()
}
