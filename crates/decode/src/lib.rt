// The instruction that a word is (01, "Instructions").
#![tactic(auto)]

ghost use Rattle.std.specs.Prelude.{◌≡◌};
ghost use Rattle.manual.specs.Decode.{decoded, operations, special_word, coded_size, load_word, store_word, decode_word};

use manual::{Alu, Instr, Size};

// The operation of a function of major opcode 0.
#[tactic(auto, unfolding(manual::specs::Decode::lookup, manual::specs::Decode::operations))]
fn operation(function: u32) -> Instr
    ensures { result ≡ decoded function operations }
{
    match function {
        0x14 => Instr::Compute(Alu::Dsllv),
        0x16 => Instr::Compute(Alu::Dsrlv),
        0x24 => Instr::Compute(Alu::And),
        0x25 => Instr::Compute(Alu::Or),
        0x26 => Instr::Compute(Alu::Xor),
        0x2a => Instr::Compute(Alu::Slt),
        0x2b => Instr::Compute(Alu::Sltu),
        0x2d => Instr::Compute(Alu::Daddu),
        0x2f => Instr::Compute(Alu::Dsubu),
        _ => Instr::Reserved,
    }
}

// A word of major opcode 0.
#[tactic(auto, unfolding(manual::specs::Decode::lookup, manual::specs::Decode::special_word))]
fn special(word: u32) -> Instr
    ensures { result ≡ special_word word }
{
    match word % 0x40 {
        0x00 => isa::if_zero(word, Instr::Nop),
        0x0d => Instr::Break,
        function => isa::if_zero(word / 0x40 % 32, operation(function)),
    }
}

// The size that a size code names.
#[tactic(auto, unfolding(manual::specs::Decode::lookup, manual::specs::Decode::coded_size))]
fn coded_size(code: u32) -> Size
    ensures { result ≡ coded_size code }
{
    match code {
        0 => Size::One,
        1 => Size::Two,
        2 => Size::Four,
        _ => Size::Eight,
    }
}

// A word of major opcode 50; `offset` is its 10..3, signed.
#[tactic(auto, unfolding(manual::specs::Decode::load_word))]
pub fn load(word: u32, offset: u64) -> Instr
    ensures { result ≡ load_word word offset }
{
    if word % 8 == 7 {
        Instr::Reserved
    } else {
        Instr::Load(coded_size(word % 4), word / 4 % 2 == 1, offset)
    }
}

// A word of major opcode 58.
#[tactic(auto, unfolding(manual::specs::Decode::store_word))]
pub fn store(word: u32, offset: u64) -> Instr
    ensures { result ≡ store_word word offset }
{
    isa::if_zero(word / 4 % 2, Instr::Store(coded_size(word % 4), offset))
}

// The instruction that a word is.
#[tactic(auto, unfolding(manual::specs::Decode::lookup, manual::specs::Decode::majors, manual::specs::Decode::decode_word))]
pub fn decode(word: u32) -> Instr
    ensures { result ≡ decode_word word }
{
    let low = u64::from(word % 0x1_0000);
    let signed = immediate::signed_16(word);
    let near = immediate::signed_8(word);
    let far = immediate::signed_11(word);
    match word / 0x400_0000 {
        0x00 => special(word),
        0x04 => Instr::Branch(true, signed),
        0x05 => Instr::Branch(false, signed),
        0x0c => Instr::ComputeImmediate(Alu::And, low),
        0x0d => Instr::ComputeImmediate(Alu::Or, low),
        0x0f => isa::if_zero(word / 0x20_0000 % 32, Instr::Lui(immediate::upper(word))),
        18 => capability::capability(word, signed),
        0x19 => Instr::ComputeImmediate(Alu::Daddu, signed),
        0x24 => Instr::LoadByC0(Size::One, signed),
        0x28 => Instr::StoreByC0(Size::One, signed),
        50 => load(word, near),
        54 => Instr::LoadCapability(far),
        0x37 => Instr::LoadByC0(Size::Eight, signed),
        58 => store(word, near),
        62 => Instr::StoreCapability(far),
        0x3f => Instr::StoreByC0(Size::Eight, signed),
        _ => Instr::Reserved,
    }
}
