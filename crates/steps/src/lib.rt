// The steps of a run, one after the other: by the shorter way as far as it goes, each other one by the whole way.
#![tactic(auto)]

ghost use Rattle.std.specs.Prelude.{◌≡◌, ◌<◌, List, ℕ};
ghost use Rattle.manual.specs.Registers.{is_pending};
ghost use Rattle.manual.specs.Act.{act_turn, act_ram, act_tags};
ghost use Rattle.manual.specs.State.{capability, operands_of, commit};
ghost use Rattle.manual.specs.Steps.{run_from};

use manual::{Change, Fault, Machine, Named, Operands, Outcome};

// A capability register by the number that a word has for it.
fn named(m: &Machine, number: u8) -> Named
    requires { number < 32 }
    ensures { result ≡ record { cap = capability m.now number; number = number } }
{
    Named {
        cap: m.caps[usize::from(number)],
        number,
    }
}

// The registers that a word names, as values.
#[tactic(auto, unfolding(manual::specs::State::operands_of))]
fn gather(m: &Machine, w: u32) -> Operands
    ensures { result ≡ operands_of m.now w }
{
    let n25 = isa::field::<21>(w);
    let n20 = isa::field::<16>(w);
    let n15 = isa::field::<11>(w);
    let n10 = isa::field::<6>(w);
    Operands {
        n25,
        n20,
        n15,
        g25: m.general[usize::from(n25)],
        g20: m.general[usize::from(n20)],
        g15: m.general[usize::from(n15)],
        g10: m.general[usize::from(n10)],
        c25: named(m, n25),
        c20: named(m, n20),
        c15: named(m, n15),
        c10: named(m, n10),
        c0: named(m, 0),
        pcc: m.pcc,
        cause: m.cause,
    }
}

// A step's turn on the registers that its word names.
fn turn(
    m: &Machine,
    w: u32,
    fetched: Result<u32, Fault>,
    flash: &[u8],
    ram: &mut [u8],
    tags: &mut [u8],
) -> Result<Change, Fault>
    ensures value { result ≡ act_turn (operands_of m.now w) (is_pending m.now.pending) fetched flash.now ram.old tags.old }
    ensures ram_after { ram.new ≡ act_ram (operands_of m.now w) (is_pending m.now.pending) fetched flash.now ram.old }
    ensures tags_after { tags.new ≡ act_tags (operands_of m.now w) (is_pending m.now.pending) fetched flash.now ram.old tags.old }
{
    perform::act(gather(m, w), m.pending.is_some(), fetched, flash, ram, tags)
}

// The machine with a step's change written.
#[tactic(auto, unfolding(manual::specs::State::commit))]
fn commit(m: &mut Machine, d: Change)
    ensures { m.new ≡ commit m.old d }
{
    let rd = usize::from(d.rd % 32);
    m.general[rd] = state::kept_zero(rd, d.value);
    m.caps[usize::from(d.cd % 32)] = d.cap;
    m.pcc = state::next_pcc(m.pcc, m.pending);
    m.pending = d.jump;
    m.cause = d.cause;
}

// As many steps as the budget has, or up to the one that stops.
pub fn go(mut m: Machine, flash: &[u8], ram: &mut [u8], tags: &mut [u8], budget: u32) -> Outcome
    ensures value { result ≡ (run_from budget 0 flash.now m ram.old tags.old).outcome }
    ensures ram_after { ram.new ≡ (run_from budget 0 flash.now m ram.old tags.old).ram }
    ensures tags_after { tags.new ≡ (run_from budget 0 flash.now m ram.old tags.old).tags }
{
    let mut n: u32 = 0;
    // The shorter way was not tried at this place.
    let mut fresh = true;
    while n < budget {
        let fetched = fetch::fetch(flash, ram, m.pcc);
        let w = fetch::word_of(fetched);
        if fresh && way::is_light(w) {
            n += glide::glide(&mut m, flash, ram, tags, budget - n);
            fresh = false;
            continue;
        }
        match turn(&m, w, fetched, flash, ram, tags) {
            Err(fault) => return ending::stopped(fault, n, m),
            Ok(change) => {
                commit(&mut m, change);
                n += 1;
                fresh = true;
            }
        }
    }
    ending::placeless(0, n, m)
}
