// Reads and writes the start books of a table. Standard input is a file of the second program's with books alone
// (`second-cases 1 2700 OUT books`): of each case a length of 4 bytes and its body, laid out as second/src/generate/format.rs
// says. A book to read gives REFUSAL MACHINE RAM TAGS; a book to write gives REFUSAL LENGTH OUT and, where one was written,
// what reading exactly its bytes gives. All but REFUSAL and LENGTH are checksums, as second/src/generate/answers.rs says.
#![tactic(auto)]

use std::io;
use std::io::{BufWriter, Write};

// More than the longest book, 91,739 bytes, and than the body of a case that holds it.
const SPACE: usize = 262_144;

// The largest memory and a line more, for a size to refuse; below, more than its tags.
const RAM: usize = 65_568;

const TAGS: usize = 2_080;

// The kind of a case, its first byte, for a book to read; what is no such case is a book to write.
const READ: u8 = 2;

// Where the book to read, or the machine to write, stands in a body.
const FIRST: usize = 1;

// REFUSAL MACHINE RAM TAGS of a book, read into these memories.
fn read(book: &[u8], flash: usize, ram: &mut [u8], tags: &mut [u8]) -> [u64; 4] {
    let answer = enter::read_book(book, flash, ram, tags);
    [
        u64::from(told::code_of(answer)),
        sums::sum_machine(answer.unwrap_or(entering::zero_machine())),
        sums::sum_bytes(ram),
        sums::sum_bytes(tags),
    ]
}

// Reads the book of this case, which takes its size of this space.
fn read_case<W: Write>(to: &mut W, body: &[u8], space: &mut [u8]) -> io::Result<()> {
    let (book, flash_at) = pieces::memory_in(space, body, FIRST);
    let mut ram = [0; RAM];
    let (ram, tags_at) = pieces::memory_in(&mut ram, body, tables::after(flash_at, 4));
    let mut tags = [0; TAGS];
    let (tags, _) = pieces::memory_in(&mut tags, body, tags_at);
    let flash = tables::number_4(body, flash_at) as usize;
    tables::print_line(to, &read(book, flash, ram, tags))
}

// Writes the book of this case to a buffer that takes its size of this space, and reads it back over memories full of other bytes.
fn write_case<W: Write>(to: &mut W, body: &[u8], space: &mut [u8]) -> io::Result<()> {
    let mut ram = [0; RAM];
    let (ram, tags_at) = pieces::memory_in(&mut ram, body, machines::machine_end(body, FIRST));
    let mut tags = [0; TAGS];
    let (tags, out_at) = pieces::memory_in(&mut tags, body, tags_at);
    let (out, _) = pieces::memory_in(space, body, out_at);
    let written = write::write_book(machines::machine_in(body, FIRST), ram, tags, out);
    let sum = sums::sum_bytes(out);
    match written {
        Err(refusal) => {
            let number = u64::from(told::refusal_number(refusal));
            tables::print_line(to, &[number, 0, sum])
        }
        Ok(bytes) => {
            ram.fill(0xDD);
            tags.fill(1);
            let [verdict, machine, ram, tags] = read(tables::part(out, 0, bytes), 0, ram, tags);
            let line = [0, bytes as u64, sum, verdict, machine, ram, tags];
            tables::print_line(to, &line)
        }
    }
}

fn run_case<W: Write>(to: &mut W, body: &[u8], space: &mut [u8]) -> io::Result<()> {
    if tables::byte(body, 0) == READ {
        read_case(to, body, space)
    } else {
        write_case(to, body, space)
    }
}

fn main(rt: HostRuntime) -> io::Result<()> {
    let mut body = [0; SPACE];
    let mut book = [0; SPACE];
    let mut to = BufWriter::new(rt.alloc(), io::writer(&rt))?;
    pieces::each_case(&mut rt.reader(), &mut body, |case| {
        run_case(&mut to, case, &mut book)
    })?;
    to.flush()
}
