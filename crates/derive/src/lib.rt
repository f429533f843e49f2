// The instructions that derive a capability from another (004, chapter 4): every check in the page's order, then the effect.
// Here and in the crates beside it the parameters are the names of 004's pages, in the order of the definitions: no struct of them.
#![tactic(auto)]

ghost use Rattle.std.specs.Prelude.{◌≡◌};
ghost use Rattle.manual.specs.Checks.{settle};
ghost use Rattle.manual.specs.Derive.{c_get_pcc, c_and_perm, c_clear_tag, c_inc_base, c_set_len, c_set_offset, c_inc_offset, c_from_ptr};

use manual::{Cap, Effect, Fault, LENGTH, Named, Offset, SEAL, TAG};

#[tactic(auto, unfolding(manual::specs::Derive::c_get_pcc, manual::specs::Checks::settle))]
pub fn get_pcc(pcc: Cap, cd: u8) -> Result<Effect, Fault>
    ensures { result ≡ settle (c_get_pcc pcc cd) }
{
    checks::opened(pcc.perms, cd)?;
    Ok(Effect::Capability(cd, pcc))
}

#[tactic(auto, unfolding(manual::specs::Derive::c_and_perm, manual::specs::Checks::settle))]
pub fn and_perm(pcc: Cap, cd: u8, cb: Named, rt: u64) -> Result<Effect, Fault>
    ensures { result ≡ settle (c_and_perm pcc cd cb rt) }
{
    checks::opened(pcc.perms, cd)?;
    checks::opened(pcc.perms, cb.number)?;
    checks::tagged(cb)?;
    checks::unsealed(cb)?;
    Ok(Effect::Capability(cd, narrow::and_perms(cb.cap, rt)))
}

#[tactic(auto, unfolding(manual::specs::Derive::c_clear_tag, manual::specs::Checks::settle))]
pub fn clear_tag(pcc: Cap, cd: u8, cb: Named) -> Result<Effect, Fault>
    ensures { result ≡ settle (c_clear_tag pcc cd cb) }
{
    checks::opened(pcc.perms, cd)?;
    checks::opened(pcc.perms, cb.number)?;
    Ok(Effect::Capability(cd, narrow::clear_tag(cb.cap)))
}

#[tactic(auto, unfolding(manual::specs::Derive::c_inc_base, manual::specs::Checks::settle))]
pub fn inc_base(pcc: Cap, cd: u8, cb: Named, rt: u64) -> Result<Effect, Fault>
    ensures { result ≡ settle (c_inc_base pcc cd cb rt) }
{
    let zero = rt == 0;
    checks::opened(pcc.perms, cd)?;
    checks::opened(pcc.perms, cb.number)?;
    checks::that(cb.cap.tag || zero, TAG, cb.number)?;
    checks::that(!cb.cap.sealed || zero, SEAL, cb.number)?;
    checks::that(rt <= cb.cap.length, LENGTH, cb.number)?;
    Ok(Effect::Capability(cd, narrow::inc_base(cb.cap, rt)))
}

#[tactic(auto, unfolding(manual::specs::Derive::c_set_len, manual::specs::Checks::settle))]
pub fn set_len(pcc: Cap, cd: u8, cb: Named, rt: u64) -> Result<Effect, Fault>
    ensures { result ≡ settle (c_set_len pcc cd cb rt) }
{
    checks::opened(pcc.perms, cd)?;
    checks::opened(pcc.perms, cb.number)?;
    checks::tagged(cb)?;
    checks::unsealed(cb)?;
    checks::that(rt <= cb.cap.length, LENGTH, cb.number)?;
    Ok(Effect::Capability(cd, narrow::set_length(cb.cap, rt)))
}

#[tactic(auto, unfolding(manual::specs::Derive::c_set_offset, manual::specs::Checks::settle))]
pub fn set_offset(pcc: Cap, cd: u8, cb: Named, rt: u64) -> Result<Effect, Fault>
    ensures { result ≡ settle (c_set_offset pcc cd cb rt) }
{
    checks::opened(pcc.perms, cd)?;
    checks::opened(pcc.perms, cb.number)?;
    checks::that(!(cb.cap.tag && cb.cap.sealed), SEAL, cb.number)?;
    Ok(Effect::Capability(cd, narrow::set_offset(cb.cap, Offset(rt))))
}

#[tactic(auto, unfolding(manual::specs::Derive::c_inc_offset, manual::specs::Checks::settle))]
pub fn inc_offset(pcc: Cap, cd: u8, cb: Named, rt: u64) -> Result<Effect, Fault>
    ensures { result ≡ settle (c_inc_offset pcc cd cb rt) }
{
    checks::opened(pcc.perms, cd)?;
    checks::opened(pcc.perms, cb.number)?;
    checks::that(!(cb.cap.tag && cb.cap.sealed), SEAL, cb.number)?;
    Ok(Effect::Capability(cd, narrow::inc_offset(cb.cap, rt)))
}

#[tactic(auto, unfolding(manual::specs::Derive::c_from_ptr, manual::specs::Checks::settle))]
pub fn from_ptr(pcc: Cap, cd: u8, cb: Named, rt: u64) -> Result<Effect, Fault>
    ensures { result ≡ settle (c_from_ptr pcc cd cb rt) }
{
    let zero = rt == 0;
    checks::opened(pcc.perms, cd)?;
    checks::opened(pcc.perms, cb.number)?;
    checks::that(zero || cb.cap.tag, TAG, cb.number)?;
    checks::that(zero || !cb.cap.sealed, SEAL, cb.number)?;
    checks::that(zero || rt <= cb.cap.length, LENGTH, cb.number)?;
    Ok(Effect::Capability(cd, narrow::from_ptr(cb.cap, rt)))
}
