// Words of major opcode 0, carried out on the values that they name.
#![tactic(auto)]

ghost use Rattle.special.specs.Special.{Specially};

use manual::Alu;

// What an instruction that looks at no capability register but C0 writes. None stands for any other, and where it would stop: then nothing was done.
#[derive(Clone, Copy)]
pub enum Plain {
    Sets(u8, u64),
    Jumps(u64),
}

// A word of major opcode 0, on the registers at 25..21 and 20..16. Each operation stands in an arm of its own: one jump leads to it.
pub fn special(word: u32, n15: u8, g25: u64, g20: u64) -> Option<Plain>
    ensures { Specially word n15 g25 g20 result }
{
    let passes = word / 0x40 % 32 == 0;
    match word % 0x40 {
        0x00 => (word == 0).then_some(Plain::Sets(0, 0)),
        0x14 => passes.then_some(Plain::Sets(n15, compute::compute(Alu::Dsllv, g25, g20))),
        0x16 => passes.then_some(Plain::Sets(n15, compute::compute(Alu::Dsrlv, g25, g20))),
        0x24 => passes.then_some(Plain::Sets(n15, compute::compute(Alu::And, g25, g20))),
        0x25 => passes.then_some(Plain::Sets(n15, compute::compute(Alu::Or, g25, g20))),
        0x26 => passes.then_some(Plain::Sets(n15, compute::compute(Alu::Xor, g25, g20))),
        0x2a => passes.then_some(Plain::Sets(n15, compute::compute(Alu::Slt, g25, g20))),
        0x2b => passes.then_some(Plain::Sets(n15, compute::compute(Alu::Sltu, g25, g20))),
        0x2d => passes.then_some(Plain::Sets(n15, compute::compute(Alu::Daddu, g25, g20))),
        0x2f => passes.then_some(Plain::Sets(n15, compute::compute(Alu::Dsubu, g25, g20))),
        _ => None,
    }
}
