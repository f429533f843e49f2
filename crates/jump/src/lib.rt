// Branches, jumps and the two instructions that only raise (004, chapter 4).
#![tactic(auto)]

ghost use Rattle.std.specs.Prelude.{◌≡◌};
ghost use Rattle.manual.specs.Checks.{settle};
ghost use Rattle.manual.specs.Jump.{c_jr, c_jalr, c_call, c_return};

use manual::{Cap, Effect, Fault, LENGTH, NO_REGISTER, Named, Size};

// What CJR and CJALR ask of their target.
#[tactic(auto, unfolding(manual::specs::Checks::finish, manual::specs::Checks::settle))]
fn jumpable(cb: Named) -> Result<(), Fault>
    ensures { Rattle.manual.specs.Jump.Asks cb result }
{
    checks::tagged(cb)?;
    checks::unsealed(cb)?;
    checks::granted(cb, cap::EXECUTE)?;
    checks::granted(cb, cap::GLOBAL)?;
    checks::that(
        branch::sum_within(cb.cap.offset.0, 4, cb.cap.length),
        LENGTH,
        cb.number,
    )?;
    let at = num::address_at(cb.cap.base, cb.cap.offset);
    checks::guarded(access::is_aligned(at, Size::Four), Fault::Misaligned)
}

#[tactic(auto, unfolding(manual::specs::Jump::c_jr, manual::specs::Checks::finish, manual::specs::Checks::settle))]
pub fn cjr(pcc: Cap, cb: Named) -> Result<Effect, Fault>
    ensures { result ≡ settle (c_jr pcc cb) }
{
    checks::opened(pcc.perms, cb.number)?;
    jumpable(cb)?;
    let target = cb.cap;
    Ok(Effect::Jump(target))
}

#[tactic(auto, unfolding(manual::specs::Jump::c_jalr, manual::specs::Checks::finish, manual::specs::Checks::settle))]
pub fn cjalr(pcc: Cap, cd: u8, cb: Named) -> Result<Effect, Fault>
    ensures { result ≡ settle (c_jalr pcc cd cb) }
{
    checks::opened(pcc.perms, cd)?;
    checks::opened(pcc.perms, cb.number)?;
    jumpable(cb)?;
    let target = cb.cap;
    Ok(Effect::Link(cd, narrow::inc_offset(pcc, 8), target))
}

#[tactic(auto, unfolding(manual::specs::Jump::c_call, manual::specs::Checks::finish, manual::specs::Checks::settle))]
pub fn ccall(cs: u8) -> Result<Effect, Fault>
    ensures { result ≡ settle (c_call cs) }
{
    Err(Fault::Raise(manual::CALL, cs))
}

#[tactic(auto, unfolding(manual::specs::Jump::c_return, manual::specs::Checks::finish, manual::specs::Checks::settle))]
pub fn creturn() -> Result<Effect, Fault>
    ensures { result ≡ settle c_return }
{
    Err(Fault::Raise(manual::RETURN, NO_REGISTER))
}
