// The signed fields of a word, each in 64 bits (01, "Instruction words").
// Each has a function of its own, so that its place in the word stands here alone.
#![tactic(auto)]

ghost use Rattle.std.specs.Prelude.{◌≡◌, ◌*◌, ◌%◌, ◌^◌};
ghost use Rattle.manual.specs.Word.{extended, signed8, signed11, signed16};

// Bits 10..3.
pub fn signed_8(word: u32) -> u64
    ensures { result ≡ signed8 word }
{
    num::extend_from::<0x80>(u64::from(word / 8 % 0x100))
}

// Bits 10..0.
pub fn signed_11(word: u32) -> u64
    ensures { result ≡ signed11 word }
{
    num::extend_from::<0x400>(u64::from(word % 0x800))
}

// Bits 15..0.
pub fn signed_16(word: u32) -> u64
    ensures { result ≡ signed16 word }
{
    num::extend_from::<0x8000>(u64::from(word % 0x1_0000))
}

// Bits 15..0 as the upper half of 32 signed bits.
pub fn upper(word: u32) -> u64
    ensures { result ≡ extended 32 (word % 2 ^ 16 * 2 ^ 16) }
{
    num::extend_from::<0x8000_0000>(u64::from(word % 0x1_0000) * 0x1_0000)
}
