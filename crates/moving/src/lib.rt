// Data loads and stores through a capability register, carried out on the values that their words name.
#![tactic(auto)]

ghost use Rattle.moving.specs.Moving.{Loads, Stores};

use derivation::Capable;
use manual::{Cap, Instr, Named, Size};

// What a load of this size writes. It is put into its caller, where the size may be known to the compiler.
#[inline(always)]
fn load<'a>(
    size: Size,
    signed: bool,
    x: u64,
    rd: u8,
    pcc: Cap,
    cb: Named,
    rt: u64,
    flash: &'a [u8],
    ram: &'a [u8],
) -> Option<Capable>
    ensures { Loads (Instr.Load size signed x) rd pcc cb rt flash.now ram.now result }
{
    let opens = cap::register_open(pcc.perms, cb.number);
    let at = data::reached(cap::LOAD, size, x, opens, cb.cap, rt);
    let value = data::loaded(at, size, signed, flash, ram)?;
    Some(Capable::Sets(rd, value))
}

// And what a store leaves.
#[inline(always)]
fn store(
    size: Size,
    x: u64,
    value: u64,
    pcc: Cap,
    cb: Named,
    rt: u64,
    flash: &[u8],
    ram: &mut [u8],
    tags: &mut [u8],
) -> Option<Capable>
    ensures { Stores (Instr.Store size x) value pcc cb rt flash.now ram.old tags.old ram.new tags.new result }
{
    let opens = cap::register_open(pcc.perms, cb.number);
    let at = data::reached(cap::STORE, size, x, opens, cb.cap, rt);
    data::stored(at, size, value, flash, ram, tags).ok()?;
    Some(Capable::Sets(0, 0))
}

// What a load writes; None for any other instruction. The common size stands by itself for speed alone: its eight bytes are then one
// number to the compiler.
pub fn loads<'a>(
    i: Instr,
    rd: u8,
    pcc: Cap,
    cb: Named,
    rt: u64,
    flash: &'a [u8],
    ram: &'a [u8],
) -> Option<Capable>
    ensures { Loads i rd pcc cb rt flash.now ram.now result }
{
    match i {
        Instr::Load(Size::Eight, signed, x) => load(
            Size::Eight,
            signed,
            x,
            rd,
            pcc,
            cb,
            rt,
            flash,
            ram,
        ),
        Instr::Load(size, signed, x) => load(size, signed, x, rd, pcc, cb, rt, flash, ram),
        _ => None,
    }
}

// What a store leaves; None for any other instruction. The common size stands by itself as above.
pub fn stores(
    i: Instr,
    value: u64,
    pcc: Cap,
    cb: Named,
    rt: u64,
    flash: &[u8],
    ram: &mut [u8],
    tags: &mut [u8],
) -> Option<Capable>
    ensures { Stores i value pcc cb rt flash.now ram.old tags.old ram.new tags.new result }
{
    match i {
        Instr::Store(Size::Eight, x) => store(Size::Eight, x, value, pcc, cb, rt, flash, ram, tags),
        Instr::Store(size, x) => store(size, x, value, pcc, cb, rt, flash, ram, tags),
        _ => None,
    }
}
