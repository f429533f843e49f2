// Instructions that derive a capability register from the one at 15..11, carried out on the values that their words name.
#![tactic(auto)]

ghost use Rattle.std.specs.Prelude.{◌≡◌};
ghost use Rattle.derivation.specs.Deriving.{tested_of, Derives};

use manual::{Cap, Named, Offset};

// What an instruction that looks at capability registers writes: a general or a capability register.
// None stands for any other, and where it would stop: then nothing was done.
#[derive(Clone, Copy)]
pub enum Capable {
    Sets(u8, u64),
    Puts(u8, Cap),
}

// What instructions ask for before they derive: each test is made, so that none waits for a jump.
#[derive(Clone, Copy)]
struct Tests {
    two: bool,
    movable: bool,
    free: bool,
    shorter: bool,
}

fn tested(word: u32, cd: u8, pcc: Cap, cb: Named, rt: u64) -> Tests
    ensures { result ≡ tested_of word cd pcc cb rt }
{
    let c = cb.cap;
    let to = cap::register_open(pcc.perms, cd);
    let from = cap::register_open(pcc.perms, cb.number);
    let two = to && from && word % 0x800 == 0;
    let three = to && from && word % 0x40 == 0;
    let movable = three && !(c.tag && c.sealed);
    let free = three && c.tag && !c.sealed;
    let shorter = free && rt <= c.length;
    Tests {
        two,
        movable,
        free,
        shorter,
    }
}

// What the instruction of a word of major opcode 18 writes, on the registers at 15..11 and 10..6. It is told by the word, not decoded
// first, so that one jump leads to it; where the first register is not free it may say None though it would go on.
pub fn derived(word: u32, cd: u8, pcc: Cap, cb: Named, rt: u64) -> Option<Capable>
    ensures { Derives word cd pcc cb rt result }
{
    let c = cb.cap;
    let t = tested(word, cd, pcc, cb, rt);
    match word / 0x20_0000 % 32 {
        10 => t
            .free
            .then_some(Capable::Puts(cd, narrow::and_perms(c, rt))),
        11 => t.two.then_some(Capable::Puts(cd, narrow::clear_tag(c))),
        12 => t
            .shorter
            .then_some(Capable::Puts(cd, narrow::inc_base(c, rt))),
        13 => t
            .shorter
            .then_some(Capable::Puts(cd, narrow::set_length(c, rt))),
        14 => t
            .movable
            .then_some(Capable::Puts(cd, narrow::set_offset(c, Offset(rt)))),
        15 => t
            .movable
            .then_some(Capable::Puts(cd, narrow::inc_offset(c, rt))),
        _ => None,
    }
}
