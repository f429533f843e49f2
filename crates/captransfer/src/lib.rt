// Loads and stores of capabilities through a capability: CLC and CSC (004, chapter 4).
#![tactic(auto)]

ghost use Rattle.std.specs.Prelude.{◌≡◌, Bool, ◌||◌, not};
ghost use Rattle.manual.specs.Cap.{permits, GLOBAL, STORE_LOCAL};
ghost use Rattle.manual.specs.Checks.{settle};
ghost use Rattle.manual.specs.Transfer.{may_store, c_lc, c_sc};

use manual::{Cap, Effect, Fault, LENGTH, Named, Size, Unfit};

#[tactic(auto, unfolding(manual::specs::Transfer::c_lc, manual::specs::Checks::finish, manual::specs::Checks::settle))]
pub fn clc(immediate: u64, pcc: Cap, cd: u8, cb: Named, rt: u64) -> Result<Effect, Fault>
    ensures { result ≡ settle (c_lc immediate pcc cd cb rt) }
{
    checks::opened(pcc.perms, cd)?;
    transfer::through(pcc, cb, cap::LOAD_CAPABILITY)?;
    let at = access::lies(cb, rt, immediate, Size::Line, Fault::Misaligned)?;
    Ok(Effect::LoadCapability(at, cd))
}

// A local capability is stored only with the permission for it; data is neither local nor global.
#[tactic(auto, unfolding(manual::specs::Transfer::may_store))]
fn may_store(c: Cap, by: Cap) -> bool
    ensures { result ≡ may_store c by }
{
    let local = cap::permits(by.perms, cap::STORE_LOCAL);
    let global = cap::permits(c.perms, cap::GLOBAL);
    local || !c.tag || global
}

#[tactic(auto, unfolding(manual::specs::Transfer::c_sc, manual::specs::Checks::finish, manual::specs::Checks::settle))]
pub fn csc(immediate: u64, pcc: Cap, cs: Named, cb: Named, rt: u64) -> Result<Effect, Fault>
    ensures { result ≡ settle (c_sc immediate pcc cs cb rt) }
{
    checks::opened(pcc.perms, cs.number)?;
    transfer::through(pcc, cb, cap::STORE_CAPABILITY)?;
    let cause = checks::lacking_cause(cap::STORE_LOCAL);
    checks::that(may_store(cs.cap, cb.cap), cause, cb.number)?;
    let at = access::lies(cb, rt, immediate, Size::Line, Fault::StoreMisaligned)?;
    Ok(Effect::StoreCapability(at, cs.cap))
}
