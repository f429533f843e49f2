// Steps of instructions that look at no capability register but C0, one after the other, as far as they go.
#![tactic(auto)]

ghost use Rattle.std.specs.Prelude.{◌≡◌, List, ℕ, ◌≤◌};
ghost use Rattle.slide.specs.Slide.{PlainlyBy, Sees, Slides};

use manual::Cap;
use special::Plain;
use way::Way;

// So many steps on, where the next one stands, the word there and what it is told by, as `fetch::ahead` has it.
#[derive(Clone, Copy)]
pub struct Slid {
    pub steps: u32,
    pub way: Way,
    pub word: u32,
    pub ahead: u32,
}

// Where the way stands after so many steps.
fn stands(steps: u32, way: Way, pcc: Cap, flash: &[u8], ram: &[u8]) -> Slid
    ensures steps { result.steps ≡ steps }
    ensures way { result.way ≡ way }
    ensures sees { Sees flash.now pcc way ram.now result.word result.ahead }
{
    let at = way.at;
    let fetched = fetch::fetch(flash, ram, narrow::set_offset(pcc, at));
    Slid {
        steps,
        way,
        word: fetch::word_of(fetched),
        ahead: fetch::ahead(fetched, way.slot),
    }
}

// A step there, on the values of the registers that its word names.
fn step(
    g: &[u64; 32],
    c0: Cap,
    here: Slid,
    flash: &[u8],
    ram: &mut [u8],
    tags: &mut [u8],
) -> Option<Plain>
    ensures { PlainlyBy here.ahead here.word c0 flash.now g.now ram.old tags.old ram.new tags.new result }
{
    let word = here.word;
    let i25 = usize::from(isa::field::<21>(word));
    let n20 = isa::field::<16>(word);
    let i20 = usize::from(n20);
    let n15 = isa::field::<11>(word);
    plain::plainly(here.ahead, n20, n15, g[i25], g[i20], c0, flash, ram, tags)
}

// PCC's offset is left to the way: a branch keeps all else of it. C0 and the general registers alone: what is promised holds whatever the others.
pub fn slide(
    g: &mut [u64; 32],
    c0: Cap,
    pcc: Cap,
    from: Way,
    flash: &[u8],
    ram: &mut [u8],
    tags: &mut [u8],
    budget: u32,
) -> Slid
    ensures steps_le_budget { result.steps ≤ budget }
    ensures slides { Slides flash.now c0 pcc g.old from ram.old tags.old result.steps g.new result.way ram.new tags.new }
    ensures sees { Sees flash.now pcc result.way ram.new result.word result.ahead }
{
    let mut n: u32 = 0;
    let mut way = from;
    loop {
        let here = stands(n, way, pcc, flash, ram);
        if n == budget {
            return here;
        }
        let Some(did) = step(g, c0, here, flash, ram, tags) else {
            return here;
        };
        n += 1;
        match did {
            Plain::Sets(rd, value) => {
                let rd = (rd % 32) as usize;
                g[rd] = state::kept_zero(rd, value);
                way = way::on(way);
            }
            Plain::Jumps(words) => {
                g[0] = 0;
                way = way::turned(way, words);
            }
        }
    }
}
