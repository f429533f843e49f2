// Words of major opcode 18: the capability instructions.
#![tactic(auto)]

ghost use Rattle.std.specs.Prelude.{◌≡◌};
ghost use Rattle.manual.specs.Decode.{decoded, kinds, numbers, unused, capability_word};

use manual::{Compare, Field, Instr};

// CPtrCmp by its kind.
#[tactic(auto, unfolding(manual::specs::Decode::lookup, manual::specs::Decode::kinds))]
fn ptr_compare(kind: u32) -> Instr
    ensures { result ≡ decoded kind kinds }
{
    match kind {
        0 => Instr::PtrCompare(Compare::Eq),
        1 => Instr::PtrCompare(Compare::Ne),
        2 => Instr::PtrCompare(Compare::Lt),
        3 => Instr::PtrCompare(Compare::Le),
        4 => Instr::PtrCompare(Compare::Ltu),
        5 => Instr::PtrCompare(Compare::Leu),
        _ => Instr::Reserved,
    }
}

// The instruction of a number of major opcode 18; `count` is the word's 15..0, signed.
#[tactic(auto, unfolding(manual::specs::Decode::lookup, manual::specs::Decode::numbers))]
fn numbered(number: u32, word: u32, count: u64) -> Instr
    ensures { result ≡ decoded number (numbers word count) }
{
    match number {
        0 => Instr::Get(Field::Base),
        1 => Instr::Get(Field::Length),
        2 => Instr::Get(Field::Offset),
        3 => Instr::Get(Field::Perms),
        4 => Instr::Get(Field::Tag),
        5 => Instr::Get(Field::Sealed),
        6 => Instr::Get(Field::Otype),
        7 => Instr::GetPcc,
        8 => Instr::GetCause,
        9 => Instr::SetCause,
        10 => Instr::AndPerm,
        11 => Instr::ClearTag,
        12 => Instr::IncBase,
        13 => Instr::SetLength,
        14 => Instr::SetOffset,
        15 => Instr::IncOffset,
        16 => Instr::FromPtr,
        17 => Instr::ToPtr,
        18 => Instr::Seal,
        19 => Instr::Unseal,
        20 => Instr::CheckPerm,
        21 => Instr::CheckType,
        22 => Instr::Jr,
        23 => Instr::Jalr,
        24 => Instr::BranchTag(false, count),
        25 => Instr::BranchTag(true, count),
        26 => Instr::Call,
        27 => Instr::Return,
        28 => ptr_compare(word % 8),
        _ => Instr::Reserved,
    }
}

// The field of a word that a number of major opcode 18 does not use.
#[tactic(auto, unfolding(manual::specs::Decode::lookup, manual::specs::Decode::unused))]
fn unused(number: u32, word: u32) -> u32
    ensures { result ≡ unused number word }
{
    let below_one = word % 0x1_0000;
    let below_three = word % 0x40;
    match number {
        7 | 8 | 9 | 22 => below_one,
        10 | 12..=19 => below_three,
        24 | 25 => 0,
        27 => word % 0x20_0000,
        28 => word / 8 % 8,
        _ => word % 0x800,
    }
}

// A word of major opcode 18.
#[tactic(auto, unfolding(manual::specs::Decode::capability_word))]
pub fn capability(word: u32, count: u64) -> Instr
    ensures { result ≡ capability_word word count }
{
    let number = word / 0x20_0000 % 32;
    isa::if_zero(unused(number, word), numbered(number, word, count))
}
