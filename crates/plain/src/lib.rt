// Instructions that look at no capability register but C0, carried out on the values that their words name.
#![tactic(auto)]

ghost use Rattle.std.specs.Prelude.{◌≡◌};
ghost use Rattle.manual.specs.Decode.{decode_word};
ghost use Rattle.plain.specs.Plain.{Loads, Stores, branches_by, Plainly};

use manual::{Alu, Cap, Size};
use special::Plain;

// A load of this size by C0. It is put into its caller, so that the size is known to the compiler. Apart from that of `moving`: two calls, and another answer.
#[inline(always)]
fn load<'a>(
    size: Size,
    x: u64,
    rd: u8,
    c0: Cap,
    rt: u64,
    flash: &'a [u8],
    ram: &'a [u8],
) -> Option<Plain>
    ensures { Loads size x rd c0 rt flash.now ram.now result }
{
    let at = data::reached(cap::LOAD, size, x, true, c0, rt);
    let value = data::loaded(at, size, false, flash, ram)?;
    Some(Plain::Sets(rd, value))
}

// And a store.
#[inline(always)]
fn store(
    size: Size,
    x: u64,
    value: u64,
    c0: Cap,
    rt: u64,
    flash: &[u8],
    ram: &mut [u8],
    tags: &mut [u8],
) -> Option<Plain>
    ensures { Stores size x value c0 rt flash.now ram.old tags.old ram.new tags.new result }
{
    let at = data::reached(cap::STORE, size, x, true, c0, rt);
    data::stored(at, size, value, flash, ram, tags).ok()?;
    Some(Plain::Sets(0, 0))
}

fn branches(taken: bool, words: u64) -> Plain
    ensures { result ≡ branches_by taken words }
{
    if taken {
        Plain::Jumps(words)
    } else {
        Plain::Sets(0, 0)
    }
}

// What the word's instruction writes, on the registers at 25..21 and 20..16, and C0. It is told by the word, not decoded first, so
// that one jump leads to it, and an access's size is known to the compiler.
pub fn plainly(
    word: u32,
    n20: u8,
    n15: u8,
    g25: u64,
    g20: u64,
    c0: Cap,
    flash: &[u8],
    ram: &mut [u8],
    tags: &mut [u8],
) -> Option<Plain>
    ensures { Plainly (decode_word word) n20 n15 g25 g20 c0 flash.now ram.old tags.old ram.new tags.new result }
{
    let low = u64::from(word % 0x1_0000);
    let x = immediate::signed_16(word);
    match word / 0x400_0000 {
        0x00 => special::special(word, n15, g25, g20),
        0x04 => Some(branches(branch::is_wanted(true, g25 == g20), x)),
        0x05 => Some(branches(branch::is_wanted(false, g25 == g20), x)),
        0x0c => Some(Plain::Sets(n20, compute::compute(Alu::And, g25, low))),
        0x0d => Some(Plain::Sets(n20, compute::compute(Alu::Or, g25, low))),
        0x0f => (word / 0x20_0000 % 32 == 0).then_some(Plain::Sets(n20, immediate::upper(word))),
        0x19 => Some(Plain::Sets(n20, compute::compute(Alu::Daddu, g25, x))),
        0x24 => load(Size::One, x, n20, c0, g25, flash, ram),
        0x28 => store(Size::One, x, g20, c0, g25, flash, ram, tags),
        0x37 => load(Size::Eight, x, n20, c0, g25, flash, ram),
        0x3f => store(Size::Eight, x, g20, c0, g25, flash, ram, tags),
        _ => None,
    }
}
