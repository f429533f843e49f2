// Steps made one after the other by a shorter way, as far as it goes: the whole way makes the others.
#![tactic(auto)]

ghost use Rattle.std.specs.Prelude.{◌≡◌, List, ℕ, ◌≤◌, None};
ghost use Rattle.slide.specs.Slide.{Glides};
ghost use Rattle.manual.specs.Word.{field25, field20, field15};
ghost use Rattle.manual.specs.State.{capability};
ghost use Rattle.glide.specs.Glide.{CapablyBy};

use derivation::Capable;
use manual::{Cap, Machine, Named};
use way::Way;

// A step that looks at capability registers, on the values of those that its word names.
fn ride(
    m: &Machine,
    i: u32,
    w: u32,
    here: Cap,
    flash: &[u8],
    ram: &mut [u8],
    tags: &mut [u8],
) -> Option<Capable>
    ensures { CapablyBy i w here (capability m.now (field25 w)) (capability m.now (field20 w)) (capability m.now (field15 w)) flash.now m.now.general ram.old tags.old ram.new tags.new result }
{
    let n25 = isa::field::<21>(w);
    let n20 = isa::field::<16>(w);
    let n15 = isa::field::<11>(w);
    let n10 = isa::field::<6>(w);
    let c20 = Named {
        cap: m.caps[usize::from(n20)],
        number: n20,
    };
    let c15 = Named {
        cap: m.caps[usize::from(n15)],
        number: n15,
    };
    let g25 = m.general[usize::from(n25)];
    let g15 = m.general[usize::from(n15)];
    let g10 = m.general[usize::from(n10)];
    let k25 = m.caps[usize::from(n25)];
    capable::capably(
        i, n25, n20, g25, g15, g10, here, k25, c20, c15, flash, ram, tags,
    )
}

// From no pending jump: the steps that look at C0 alone, then one that looks at capability registers, and so on.
fn from_quiet(m: &mut Machine, flash: &[u8], ram: &mut [u8], tags: &mut [u8], budget: u32) -> u32
    ensures steps_le_budget { result ≤ budget }
    ensures glides { Glides flash.now m.old.general m.old.caps m.old.pcc None ram.old tags.old result m.new.general m.new.caps m.new.pcc m.new.pending ram.new tags.new }
    ensures cause_stays { m.new.cause ≡ m.old.cause }
{
    let pcc = m.pcc;
    let start = pcc.offset;
    let mut n: u32 = 0;
    let mut way = Way {
        at: start,
        slot: false,
        target: start,
    };
    loop {
        let c0 = m.caps[0];
        let slid = slide::slide(&mut m.general, c0, pcc, way, flash, ram, tags, budget - n);
        way = slid.way;
        n += slid.steps;
        if n == budget {
            way::come_to(m, way);
            return n;
        }
        let here = narrow::set_offset(pcc, way.at);
        let Some(rode) = ride(m, slid.ahead, slid.word, here, flash, ram, tags) else {
            way::come_to(m, way);
            return n;
        };
        way = way::on(way);
        n += 1;
        match rode {
            Capable::Sets(rd, value) => {
                let rd = (rd % 32) as usize;
                m.general[rd] = state::kept_zero(rd, value);
            }
            Capable::Puts(cd, c) => {
                m.general[0] = 0;
                let cd = (cd % 32) as usize;
                m.caps[cd] = c;
            }
        }
    }
}

// How many steps were made. The slot of a jump that another step made is left to the whole step.
pub fn glide(m: &mut Machine, flash: &[u8], ram: &mut [u8], tags: &mut [u8], budget: u32) -> u32
    ensures steps_le_budget { result ≤ budget }
    ensures glides { Glides flash.now m.old.general m.old.caps m.old.pcc m.old.pending ram.old tags.old result m.new.general m.new.caps m.new.pcc m.new.pending ram.new tags.new }
    ensures cause_stays { m.new.cause ≡ m.old.cause }
{
    match m.pending {
        None => from_quiet(m, flash, ram, tags, budget),
        Some(_) => 0,
    }
}
