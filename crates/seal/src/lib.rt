// CSeal and CUnseal (004).
#![tactic(auto)]

ghost use Rattle.std.specs.Prelude.{◌≡◌, ◌+◌, eqb, ltb};
ghost use Rattle.manual.specs.Checks.{settle};
ghost use Rattle.manual.specs.Seal.{c_seal, c_unseal};

use manual::{Cap, Effect, Fault, LENGTH, Named, SEAL, TYPE};

#[tactic(auto, using(std::proofs::lemmas::Bool::Decides::nat_tests), unfolding(manual::specs::Seal::c_seal, manual::specs::Checks::settle))]
pub fn seal(pcc: Cap, cd: u8, cs: Named, ct: Named) -> Result<Effect, Fault>
    ensures { result ≡ settle (c_seal pcc cd cs ct) }
{
    checks::opened(pcc.perms, cd)?;
    checks::opened(pcc.perms, cs.number)?;
    checks::opened(pcc.perms, ct.number)?;
    checks::tagged(cs)?;
    checks::tagged(ct)?;
    checks::unsealed(cs)?;
    checks::unsealed(ct)?;
    checks::granted(ct, cap::SEAL)?;
    checks::that(ct.cap.offset.0 < ct.cap.length, LENGTH, ct.number)?;
    let sum = ct.cap.base.0.checked_add(ct.cap.offset.0);
    checks::that(
        sum.is_some_and(|otype| otype < 0x100_0000),
        LENGTH,
        ct.number,
    )?;
    Ok(Effect::Capability(cd, narrow::seal(cs.cap, ct.cap)))
}

#[tactic(auto, using(std::proofs::lemmas::Bool::Decides::nat_tests), unfolding(manual::specs::Seal::c_unseal, manual::specs::Checks::settle))]
pub fn unseal(pcc: Cap, cd: u8, cs: Named, ct: Named) -> Result<Effect, Fault>
    ensures { result ≡ settle (c_unseal pcc cd cs ct) }
{
    checks::opened(pcc.perms, cd)?;
    checks::opened(pcc.perms, cs.number)?;
    checks::opened(pcc.perms, ct.number)?;
    checks::tagged(cs)?;
    checks::tagged(ct)?;
    checks::that(cs.cap.sealed, SEAL, cs.number)?;
    checks::unsealed(ct)?;
    let sum = ct.cap.base.0.checked_add(ct.cap.offset.0);
    checks::that(sum == Some(u64::from(cs.cap.otype)), TYPE, ct.number)?;
    checks::granted(ct, cap::SEAL)?;
    checks::that(ct.cap.offset.0 < ct.cap.length, LENGTH, ct.number)?;
    Ok(Effect::Capability(cd, narrow::unseal(cs.cap, ct.cap)))
}
