// What the bench asks of a book and its RAM, and what is told of a run.
#![tactic(auto)]

ghost use Rattle.std.specs.Prelude.{◌≡◌};
ghost use Rattle.pages.specs.Answer.{answer_of};
ghost use Rattle.pages.specs.Bench.{bench_fits, bench_numbers};

use manual::{Answer, LINE, Outcome};

// What is told of a run.
pub fn answer_of(o: Outcome) -> Answer
    ensures { result ≡ answer_of o }
{
    Answer {
        stop: o.stop,
        cause: o.cause,
        register: o.register,
        place: o.place,
        steps: o.steps,
    }
}

pub const BENCH_RAM: usize = 32_768;

// One tag for each line of it.
pub const BENCH_TAGS: usize = BENCH_RAM / LINE;

// The largest file.
pub const FILE_MOST: usize = 65_536;

pub const BUDGET: u32 = 1_000;

// The numbers named above are those of the definitions.
pub fn bench_numbers() -> [usize; 4]
    ensures { result ≡ bench_numbers }
{
    [BENCH_RAM, BENCH_TAGS, FILE_MOST, BUDGET as usize]
}

// Whether a book of this length, in a RAM of this length, is one for the bench.
pub fn bench_fits(book: usize, ram: usize) -> bool
    ensures { result ≡ bench_fits book ram }
{
    book <= FILE_MOST && ram == BENCH_RAM
}
