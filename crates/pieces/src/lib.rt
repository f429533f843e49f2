// The memories of a case, piece by piece, and the next case read.
#![tactic(auto)]

ghost use Rattle.std.specs.Prelude.{◌≡◌, min, length, take, OnOk};
ghost use Rattle.std.specs.Counts.{IsPrefixLen};
ghost use Rattle.std.specs.Fn.{CalledAt};
ghost use Rattle.tables.specs.Tables.{number4, piece_end, with_piece, memory_end, memory_in};
ghost use Rattle.pieces.specs.Pieces.{ReadsBody, RunsCases};

use std::io;
use std::io::Read;

const MOST_CASES: usize = 1_000_000;

// Writes the piece that stands at `at`, and answers where the next stands.
fn put_piece(memory: &mut [u8], body: &[u8], at: usize) -> usize
    ensures value { result ≡ piece_end body.now at }
    ensures memory_after { memory.new ≡ with_piece body.now at memory.old }
{
    let size = tables::number(body, tables::after(at, 4), 2) as usize;
    let from = tables::after(at, 6);
    store::put_bytes(
        memory,
        tables::number_4(body, at) as usize,
        tables::part(body, from, size),
    );
    tables::after(from, size)
}

// Writes the memory that stands at `start`, and answers where the next stands. No chunks: a piece says its own size.
pub fn put_memory(memory: &mut [u8], body: &[u8], start: usize) -> usize
    ensures value { result ≡ memory_end body.now start }
    ensures memory_after { memory.new ≡ memory_in body.now start (length memory.old) }
{
    memory.fill(tables::byte(body, tables::after(start, 4)));
    let mut at = tables::after(start, 9);
    for _ in 0..tables::number_4(body, tables::after(start, 5)) {
        at = put_piece(memory, body, at);
    }
    at
}

// The size that stands at `at`, or the whole space where that is less.
pub fn size_in<'a>(s: &'a [u8], at: usize, space: &'a [u8]) -> usize
    ensures prefix_len { IsPrefixLen result space.now }
    ensures value { result ≡ min (number4 s.now at) (length space.now) }
{
    space.len().min(tables::number_4(s, at) as usize)
}

// The memory that stands at `start`, at the front of this space, and where the next stands.
pub fn memory_in<'a>(space: &'a mut [u8], body: &[u8], start: usize) -> (&'a mut [u8], usize)
    ensures value { result.0.now ≡ memory_in body.now start (min (number4 body.now start) (length space.old)) }
    ensures end { result.1 ≡ memory_end body.now start }
{
    let size = size_in(body, start, space);
    let memory = &mut space[..size];
    let end = put_memory(memory, body, start);
    (memory, end)
}

// Reads a case into this space: how many bytes its body has, 0 where there is none.
pub fn next_body<R: Read>(input: &mut R, space: &mut [u8]) -> usize
    ensures count { IsPrefixLen result space.new }
    ensures bytes { ReadsBody (R.remaining input.old) (R.remaining input.new) (take result space.new) }
{
    let mut head: [u8; 4] = [0; 4];
    if tables::read_full(input, &mut head) < 4 {
        return 0;
    }
    let n = size_in(&head, 0, space);
    tables::read_full(input, &mut space[..n])
}

// Runs the body of each case of the input, read into this space, until there is none or a run fails. A length is cut here, as `Read` answers one.
pub fn each_case<R: Read, F: FnMut(&[u8]) -> io::Result<()>>(
    input: &mut R,
    space: &mut [u8],
    mut run: F,
) -> io::Result<()>
    requires { F.IsAlwaysCallable run }
    ensures { OnOk result (RunsCases MOST_CASES (λ f body g. CalledAt F.FnMut f body (Ok tt) g)
        (R.remaining input.old) run (R.remaining input.new)) }
{
    for _ in 0..MOST_CASES {
        let n = next_body(input, space);
        if n == 0 {
            return Ok(());
        }
        run(&space[..n])?;
    }
    Ok(())
}
