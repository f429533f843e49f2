// Instruction words: the fields of one, and which count as branches and jumps (01, "Instruction words").
#![tactic(auto)]

ghost use Rattle.std.specs.Prelude.{◌≡◌, ◌/◌, ◌%◌, ◌^◌, ◌<◌};
ghost use Rattle.manual.specs.Decode.{if_zero, is_jump_word};

use manual::Instr;

// The field of five bits of a word from bit `LOW` on; none of its bits lies past the word's top.
pub fn field<const LOW: u32>(word: u32) -> u8
    ensures { result ≡ word / 2 ^ LOW % 32 }
{
    if LOW < 32 {
        ((word >> LOW) % 32) as u8
    } else {
        0
    }
}

// The instruction, if a field that it does not use is zero.
#[tactic(auto, unfolding(manual::specs::Decode::if_zero))]
pub fn if_zero(field: u32, i: Instr) -> Instr
    ensures { result ≡ if_zero field i }
{
    if field == 0 { i } else { Instr::Reserved }
}

// Whether a word counts as a branch or a jump, whatever its unused fields hold.
#[tactic(auto, using(std::proofs::lemmas::Bool::Decides::nat_tests), unfolding(manual::specs::Decode::lookup, manual::specs::Decode::is_jump_word))]
pub fn is_jump_word(word: u32) -> bool
    ensures { result ≡ is_jump_word word }
{
    let number = field::<21>(word);
    match word / 0x400_0000 {
        0x04 | 0x05 => true,
        18 => matches!(number, 22..=25),
        _ => false,
    }
}
