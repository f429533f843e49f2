// Runs the machines of a table. Standard input is a file of the second program's with runs alone: of each case a length
// of 4 bytes and its body, laid out as second/src/generate/format.rs says. A case's line is STOP CAUSE REGISTER PLACE
// STEPS MACHINE RAM TAGS, the last three checksums, as second/src/generate/answers.rs says.
#![tactic(auto)]

use std::io;
use std::io::{BufWriter, Write};

// A line more than the largest memory, for a size to refuse.
const SPACE: usize = 65_568;

// More than the tags of so large a memory.
const TAGS: usize = 2_080;

// Where the machine stands in a body: after the kind and the budget.
const MACHINE: usize = 5;

// Runs the case of this body, whose flash takes its size of this space.
fn run_case<W: Write>(to: &mut W, body: &[u8], space: &mut [u8]) -> io::Result<()> {
    let flash_at = machines::machine_end(body, MACHINE);
    let (flash, ram_at) = pieces::memory_in(space, body, flash_at);
    let mut ram = [0; SPACE];
    let (ram, tags_at) = pieces::memory_in(&mut ram, body, ram_at);
    let mut tags = [0; TAGS];
    let (tags, _) = pieces::memory_in(&mut tags, body, tags_at);
    let m = machines::machine_in(body, MACHINE);
    let outcome = machine::run(m, flash, ram, tags, tables::number_4(body, 1));
    let line = [
        u64::from(outcome.stop),
        u64::from(outcome.cause),
        u64::from(outcome.register),
        outcome.place,
        u64::from(outcome.steps),
        sums::sum_machine(outcome.machine),
        sums::sum_bytes(ram),
        sums::sum_bytes(tags),
    ];
    tables::print_line(to, &line)
}

fn main(rt: HostRuntime) -> io::Result<()> {
    let mut body = [0; SPACE];
    let mut flash = [0; SPACE];
    let mut to = BufWriter::new(rt.alloc(), io::writer(&rt))?;
    pieces::each_case(&mut rt.reader(), &mut body, |case| {
        run_case(&mut to, case, &mut flash)
    })?;
    to.flush()
}
