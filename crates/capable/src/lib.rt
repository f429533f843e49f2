// Instructions that look at capability registers and write a register or the memory, carried out on the values that their words
// name.
#![tactic(auto)]

ghost use Rattle.manual.specs.Decode.{decode_word};
ghost use Rattle.capable.specs.Capable.{Capably};

use derivation::Capable;
use manual::{Cap, Named};

// What the word's instruction writes, on the registers at 25..21, 20..16, 15..11 and 10..6: told by its major opcode.
pub fn capably(
    word: u32,
    n25: u8,
    n20: u8,
    g25: u64,
    g15: u64,
    g10: u64,
    pcc: Cap,
    k25: Cap,
    c20: Named,
    c15: Named,
    flash: &[u8],
    ram: &mut [u8],
    tags: &mut [u8],
) -> Option<Capable>
    ensures { Capably (decode_word word) n25 n20 g25 g15 g10 pcc k25 c20 c15 flash.now ram.old tags.old ram.new tags.new result }
{
    let near = immediate::signed_8(word);
    let far = immediate::signed_11(word);
    match word / 0x400_0000 {
        18 => reading::read(word, n20, pcc, c15, g10),
        50 => moving::loads(decode::load(word, near), n25, pcc, c20, g15, flash, ram),
        54 => carrying::load(far, n25, pcc, c20, g15, flash, ram, tags),
        58 => moving::stores(
            decode::store(word, near),
            g25,
            pcc,
            c20,
            g15,
            flash,
            ram,
            tags,
        ),
        62 => {
            let cs = Named {
                cap: k25,
                number: n25,
            };
            carrying::store(far, cs, pcc, c20, g15, flash, ram, tags)
        }
        _ => None,
    }
}
