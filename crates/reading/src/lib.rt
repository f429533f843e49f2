// Words of major opcode 18 on the values that they name: fields of the register at 15..11 are read here, and `derivation` does the rest.
#![tactic(auto)]

ghost use Rattle.derivation.specs.Deriving.{Derives};

use derivation::Capable;
use manual::{Cap, Named};

// What the word's instruction writes; None for any that neither reads a field nor derives.
pub fn read(word: u32, rd: u8, pcc: Cap, cb: Named, rt: u64) -> Option<Capable>
    ensures { Derives word rd pcc cb rt result }
{
    let c = cb.cap;
    let opens = cap::register_open(pcc.perms, cb.number);
    let value = match word / 0x20_0000 % 32 {
        0 => c.base.0,
        1 => c.length,
        2 => c.offset.0,
        3 => u64::from(c.perms),
        4 => u64::from(c.tag),
        5 => u64::from(c.sealed),
        6 => u64::from(c.otype),
        _ => return derivation::derived(word, rd, pcc, cb, rt),
    };
    (word % 0x800 == 0 && opens).then_some(Capable::Sets(rd, value))
}
