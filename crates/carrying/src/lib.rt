// CLC and CSC through a capability register, carried out on the values that their words name.
#![tactic(auto)]

ghost use Rattle.carrying.specs.Carrying.{LoadsLine, StoresLine};

use derivation::Capable;
use manual::{Cap, Named, Size};

// What CLC writes, at an offset of `x` bytes.
pub fn load<'a>(
    x: u64,
    cd: u8,
    pcc: Cap,
    cb: Named,
    rt: u64,
    flash: &'a [u8],
    ram: &'a [u8],
    tags: &[u8],
) -> Option<Capable>
    ensures { LoadsLine x cd pcc cb rt flash.now ram.now tags.now result }
{
    if !cap::register_open(pcc.perms, cd) {
        return None;
    }
    let opens = cap::register_open(pcc.perms, cb.number);
    let at = data::reached(cap::LOAD_CAPABILITY, Size::Line, x, opens, cb.cap, rt)?;
    let c = line::load(flash, ram, tags, at)?;
    Some(Capable::Puts(cd, c))
}

// What CSC leaves. A capability that is neither global nor stored with the permission for local ones is left to the whole step.
pub fn store(
    x: u64,
    cs: Named,
    pcc: Cap,
    cb: Named,
    rt: u64,
    flash: &[u8],
    ram: &mut [u8],
    tags: &mut [u8],
) -> Option<Capable>
    ensures { StoresLine x cs pcc cb rt flash.now ram.old tags.old ram.new tags.new result }
{
    let from = cap::register_open(pcc.perms, cs.number);
    let local = cap::permits(cb.cap.perms, cap::STORE_LOCAL);
    let global = cap::permits(cs.cap.perms, cap::GLOBAL);
    if from && (local || global) {
        let opens = cap::register_open(pcc.perms, cb.number);
        let at = data::reached(cap::STORE_CAPABILITY, Size::Line, x, opens, cb.cap, rt)?;
        capstore::store(flash.len(), ram, tags, at, cs.cap).ok()?;
        return Some(Capable::Sets(0, 0));
    }
    None
}
