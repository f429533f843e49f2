// What the programs that run a table of cases share: a case as second/src/generate/format.rs lays it out, and its line as
// second/src/generate/answers.rs says. It is the programs' input and output and no part of the model.
#![tactic(auto)]

ghost use Rattle.std.specs.Prelude.{◌≡◌, take, OnOk};
ghost use Rattle.std.specs.Counts.{IsPrefixLen};
ghost use Rattle.std.specs.Io.KnownBytes.{Appends, Consumes};
ghost use Rattle.tables.specs.Lines.{printed, line, answer_line};
ghost use Rattle.tables.specs.Tables.{byte_at, place_after, part_at, number_at, number4};

use manual::Answer;
use std::io;
use std::io::{Read, Write};

// Reads until the space is full, the input ends or a read fails: how many bytes stand at the front of the space.
// A loop, since `read_exact` does not say what it read before an error.
pub fn read_full<R: Read>(input: &mut R, space: &mut [u8]) -> usize
    ensures count { IsPrefixLen result space.new }
    ensures bytes { Consumes (R.remaining input.old) (R.remaining input.new) (take result space.new) }
{
    let mut done = 0;
    while done < space.len() {
        match input.read(&mut space[done..]) {
            Ok(0) | Err(_) => break,
            Ok(n) => done += n,
        }
    }
    done
}

// What is read past the end is 0.
pub fn byte(s: &[u8], at: usize) -> u8
    ensures { result ≡ byte_at s.now at }
{
    s.get(at).copied().unwrap_or(0)
}

pub fn after(at: usize, bytes: usize) -> usize
    ensures { result ≡ place_after at bytes }
{
    at.wrapping_add(bytes)
}

// The bytes at a place; none where they are cut.
#[tactic(auto, using(crate::proofs::Laws::part_in, crate::proofs::Laws::part_cut))]
pub fn part(s: &[u8], at: usize, size: usize) -> &[u8]
    ensures { result.now ≡ part_at s.now at size }
{
    at.checked_add(size)
        .and_then(|end| s.get(at..end))
        .unwrap_or(&[])
}

// The bytes and a place in them, since a case says its own sizes as it goes and may be cut anywhere.
pub fn number(s: &[u8], at: usize, size: usize) -> u64
    ensures { result ≡ number_at s.now at size }
{
    num::load_be(part(s, at, size))
}

pub fn number_4(s: &[u8], at: usize) -> u32
    ensures { result ≡ number4 s.now at }
{
    (number(s, at, 4) % 0x1_0000_0000) as u32
}

// A number in decimal, and a byte after it.
fn print<W: Write>(to: &mut W, n: u64, end: u8) -> io::Result<()>
    ensures { OnOk result (Appends (W.contents to.old) (W.contents to.new) (printed n end)) }
{
    write!(to, "{n}")?;
    to.write_all(&[end])
}

// A line of numbers. No Display: of the lines printed one alone, an answer's, is of a type.
pub fn print_line<W: Write>(to: &mut W, numbers: &[u64]) -> io::Result<()>
    ensures { OnOk result (Appends (W.contents to.old) (W.contents to.new) (line numbers.now)) }
{
    let mut rest = numbers;
    loop {
        match rest {
            [] => return Ok(()),
            [last] => return print(to, *last, b'\n'),
            [first, more @ ..] => {
                print(to, *first, b' ')?;
                rest = more;
            }
        }
    }
}

// The bench's line.
pub fn print_answer<W: Write>(to: &mut W, a: Answer) -> io::Result<()>
    ensures { OnOk result (Appends (W.contents to.old) (W.contents to.new) (answer_line a)) }
{
    let line = [
        u64::from(a.stop),
        u64::from(a.cause),
        u64::from(a.register),
        a.place,
        u64::from(a.steps),
    ];
    print_line(to, &line)
}
