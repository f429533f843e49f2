// Loads and stores of data through a capability (004, chapter 4; 01, "Access and fetch").
#![tactic(auto)]

ghost use Rattle.std.specs.Prelude.{◌≡◌};
ghost use Rattle.manual.specs.Checks.{settle};
ghost use Rattle.manual.specs.Transfer.{Through, load, store};

use manual::{Cap, Effect, Fault, Named, Size};

// What every access through cb asks before its range: open, tagged, unsealed, permitted.
#[tactic(auto, unfolding(manual::specs::Checks::finish, manual::specs::Checks::settle))]
pub fn through(pcc: Cap, cb: Named, permission: u32) -> Result<(), Fault>
    ensures { Through pcc cb permission result }
{
    checks::opened(pcc.perms, cb.number)?;
    checks::tagged(cb)?;
    checks::unsealed(cb)?;
    checks::granted(cb, permission)
}

// A load of data; LD and LBU are loads through C0.
#[tactic(auto, unfolding(manual::specs::Transfer::load, manual::specs::Checks::finish, manual::specs::Checks::settle))]
pub fn plan_load(
    size: Size,
    signed: bool,
    immediate: u64,
    pcc: Cap,
    rd: u8,
    cb: Named,
    rt: u64,
) -> Result<Effect, Fault>
    ensures { result ≡ settle (load size signed immediate pcc rd cb rt) }
{
    through(pcc, cb, cap::LOAD)?;
    let at = access::lies(cb, rt, immediate, size, Fault::Misaligned)?;
    Ok(Effect::Load(size, signed, at, rd))
}

// A store of data; SD and SB are stores through C0.
#[tactic(auto, unfolding(manual::specs::Transfer::store, manual::specs::Checks::finish, manual::specs::Checks::settle))]
pub fn plan_store(
    size: Size,
    immediate: u64,
    pcc: Cap,
    rs: u64,
    cb: Named,
    rt: u64,
) -> Result<Effect, Fault>
    ensures { result ≡ settle (store size immediate pcc rs cb rt) }
{
    through(pcc, cb, cap::STORE)?;
    let at = access::lies(cb, rt, immediate, size, Fault::StoreMisaligned)?;
    Ok(Effect::Store(size, at, rs))
}
