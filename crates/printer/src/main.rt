// Prints the bench's line for `start.book` and `flash.bin` of the folder that it runs in: stop or refusal, cause code, register,
// place, steps (01, "Bench examples").
#![tactic(auto)]

ghost use Rattle.std.specs.Prelude.{◌≤◌, length, replicate, OnOk};
ghost use Rattle.std.specs.Io.KnownBytes.{Appends};
ghost use Rattle.pages.specs.Bench.{bench_of};
ghost use Rattle.tables.specs.Lines.{answer_line};

use asked::{BENCH_RAM, BENCH_TAGS, FILE_MOST};
use std::io::Write;
use std::rt::Files;
use std::{fs, io};

// A byte more than the largest file, so that a longer one is seen as such.
const MOST_READ: usize = FILE_MOST + 1;

// The file's bytes, read into the space; none of one that cannot be opened or read.
fn read_file<'a, R: Files>(rt: &R, path: &str, space: &'a mut [u8]) -> &'a [u8]
    ensures { length result.now ≤ length space.old }
{
    let length = match fs::open(rt, path) {
        Ok(mut file) => tables::read_full(&mut file, space),
        Err(_) => 0,
    };
    &space[..length]
}

// The bench's line of a book and a flash.
fn print_bench<W: Write>(to: &mut W, book: &[u8], flash: &[u8]) -> io::Result<()>
    ensures { OnOk result (Appends (W.contents to.old) (W.contents to.new)
        (answer_line (bench_of book.now flash.now (replicate 32768 0) (replicate 1024 0)).answer)) }
{
    let mut ram = [0; BENCH_RAM];
    let mut tags = [0; BENCH_TAGS];
    tables::print_answer(to, answer::bench(book, flash, &mut ram, &mut tags))
}

fn main(rt: HostRuntime) -> io::Result<()> {
    let mut book = [0; MOST_READ];
    let book = read_file(&rt, "start.book", &mut book);
    let mut flash = [0; MOST_READ];
    let flash = read_file(&rt, "flash.bin", &mut flash);
    print_bench(&mut io::writer(&rt), book, flash)
}
