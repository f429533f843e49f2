// The instructions that look at a capability and leave it alone (004, chapter 4).
#![tactic(auto)]

ghost use Rattle.std.specs.Prelude.{◌≡◌};
ghost use Rattle.manual.specs.Checks.{settle};
ghost use Rattle.manual.specs.Inspect.{CauseOpen, field_of, pointer_of, get, c_get_cause, c_set_cause, c_to_ptr, c_check_perm, c_check_type};

use manual::{Cap, Effect, Fault, Field, NO_REGISTER, Named, SEAL, TYPE, USER};

pub fn field_of(field: Field, c: Cap) -> u64
    ensures { result ≡ field_of field c }
{
    match field {
        Field::Base => c.base.0,
        Field::Length => c.length,
        Field::Offset => c.offset.0,
        Field::Perms => u64::from(c.perms),
        Field::Tag => u64::from(c.tag),
        Field::Sealed => u64::from(c.sealed),
        Field::Otype => u64::from(c.otype),
    }
}

// CGetBase, CGetLen, CGetOffset, CGetPerm, CGetTag, CGetSealed, CGetType.
#[tactic(auto, unfolding(manual::specs::Inspect::get, manual::specs::Checks::settle))]
pub fn plan_get(field: Field, pcc: Cap, rd: u8, cb: Named) -> Result<Effect, Fault>
    ensures { result ≡ settle (get field pcc rd cb) }
{
    checks::opened(pcc.perms, cb.number)?;
    Ok(Effect::General(rd, field_of(field, cb.cap)))
}

// PCC lets the cause register be read and written.
fn cause_open(pcc: Cap) -> Result<(), Fault>
    ensures { CauseOpen pcc result }
{
    let named = Named {
        number: NO_REGISTER,
        cap: pcc,
    };
    checks::granted(named, cap::ACCESS_EPCC)
}

#[tactic(auto, unfolding(manual::specs::Inspect::c_get_cause, manual::specs::Checks::settle))]
pub fn get_cause(pcc: Cap, cause: u16, rd: u8) -> Result<Effect, Fault>
    ensures { result ≡ settle (c_get_cause pcc cause rd) }
{
    cause_open(pcc)?;
    Ok(Effect::General(rd, u64::from(cause)))
}

#[tactic(auto, unfolding(manual::specs::Inspect::c_set_cause, manual::specs::Checks::settle))]
pub fn set_cause(pcc: Cap, rt: u64) -> Result<Effect, Fault>
    ensures { result ≡ settle (c_set_cause pcc rt) }
{
    cause_open(pcc)?;
    Ok(Effect::Cause((rt % 0x1_0000) as u16))
}

// Where a capability points, counted from the base of another; 0 without a tag.
fn pointer_of(c: Cap, from: Cap) -> u64
    ensures { result ≡ pointer_of c from }
{
    if c.tag {
        let at = num::address_at(c.base, c.offset);
        let distance = num::offset_to(from.base, at);
        distance.0
    } else {
        0
    }
}

#[tactic(auto, unfolding(manual::specs::Inspect::c_to_ptr, manual::specs::Checks::settle))]
pub fn to_ptr(pcc: Cap, rd: u8, cb: Named, ct: Named) -> Result<Effect, Fault>
    ensures { result ≡ settle (c_to_ptr pcc rd cb ct) }
{
    checks::opened(pcc.perms, cb.number)?;
    checks::opened(pcc.perms, ct.number)?;
    checks::tagged(ct)?;
    Ok(Effect::General(rd, pointer_of(cb.cap, ct.cap)))
}

#[tactic(auto, unfolding(manual::specs::Inspect::c_check_perm, manual::specs::Checks::settle))]
pub fn check_perm(pcc: Cap, cs: Named, rt: u64) -> Result<Effect, Fault>
    ensures { result ≡ settle (c_check_perm pcc cs rt) }
{
    let perms = u64::from(cs.cap.perms);
    checks::opened(pcc.perms, cs.number)?;
    checks::tagged(cs)?;
    checks::that(perms & rt == rt, USER, cs.number)?;
    Ok(Effect::Nothing)
}

#[tactic(auto, unfolding(manual::specs::Inspect::c_check_type, manual::specs::Checks::settle))]
pub fn check_type(pcc: Cap, cs: Named, cb: Named) -> Result<Effect, Fault>
    ensures { result ≡ settle (c_check_type pcc cs cb) }
{
    checks::opened(pcc.perms, cs.number)?;
    checks::opened(pcc.perms, cb.number)?;
    checks::tagged(cs)?;
    checks::tagged(cb)?;
    checks::that(cs.cap.sealed, SEAL, cs.number)?;
    checks::that(cb.cap.sealed, SEAL, cb.number)?;
    checks::that(cs.cap.otype == cb.cap.otype, TYPE, cs.number)?;
    Ok(Effect::Nothing)
}
