// The machine runs: it judges its start, makes its steps, and is its definition for every input.
#![tactic(auto)]

ghost use Rattle.std.specs.Prelude.{◌≡◌};
ghost use Rattle.manual.specs.Run.{run_of};

use manual::{Machine, Outcome};

// A run: the start is judged first, and a refused one comes back as it came. The memories are lent one by one, here and below: C lends
// them so, and what is promised of each names its final bytes.
#[tactic(auto, unfolding(manual::specs::Run::run_of))]
pub fn run(m: Machine, flash: &[u8], ram: &mut [u8], tags: &mut [u8], budget: u32) -> Outcome
    ensures value { result ≡ (run_of budget flash.now m ram.old tags.old).outcome }
    ensures ram_after { ram.new ≡ (run_of budget flash.now m ram.old tags.old).ram }
    ensures tags_after { tags.new ≡ (run_of budget flash.now m ram.old tags.old).tags }
{
    match start::accept(&m, flash.len(), ram, tags) {
        Err(refusal) => ending::refused(refusal, m),
        Ok(()) => steps::go(m, flash, ram, tags, budget),
    }
}

// One step: a run of one.
pub fn step(m: Machine, flash: &[u8], ram: &mut [u8], tags: &mut [u8]) -> Outcome
    ensures value { result ≡ (run_of 1 flash.now m ram.old tags.old).outcome }
    ensures ram_after { ram.new ≡ (run_of 1 flash.now m ram.old tags.old).ram }
    ensures tags_after { tags.new ≡ (run_of 1 flash.now m ram.old tags.old).tags }
{
    run(m, flash, ram, tags, 1)
}
