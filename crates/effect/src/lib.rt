// The one effect of an instruction whose checks have passed, carried out.
#![tactic(auto)]

ghost use Rattle.std.specs.Prelude.{◌≡◌, Ok};
ghost use Rattle.manual.specs.Perform.{to_general, to_capability, turn_of, ram_of, tags_of};

use manual::{Cap, Change, Effect, Fault};

// One general register; register 0 where there is none.
fn to_general(c0: Cap, cause: u16, rd: u8, value: u64) -> Change
    ensures { result ≡ to_general c0 cause rd value }
{
    Change {
        rd,
        value,
        cd: 0,
        cap: c0,
        cause,
        jump: None,
    }
}

// One capability register, and the jump; C0 as it was where there is none.
fn to_capability(cause: u16, cd: u8, cap: Cap, jump: Option<Cap>) -> Change
    ensures { result ≡ to_capability cause cd cap jump }
{
    Change {
        rd: 0,
        value: 0,
        cd,
        cap,
        cause,
        jump,
    }
}

// What the step writes, and the RAM and the tags that it leaves.
#[tactic(auto, unfolding(manual::specs::Perform::turn_of, manual::specs::Perform::ram_of, manual::specs::Perform::tags_of))]
pub fn carry_out(
    c0: Cap,
    cause: u16,
    effect: Effect,
    flash: &[u8],
    ram: &mut [u8],
    tags: &mut [u8],
) -> Result<Change, Fault>
    ensures value { result ≡ turn_of c0 cause flash.now ram.old tags.old effect }
    ensures ram_after { ram.new ≡ ram_of flash.now ram.old effect }
    ensures tags_after { tags.new ≡ tags_of flash.now ram.old tags.old effect }
{
    match effect {
        Effect::Nothing => Ok(to_general(c0, cause, 0, 0)),
        Effect::General(rd, value) => Ok(to_general(c0, cause, rd, value)),
        Effect::Capability(cd, c) => Ok(to_capability(cause, cd, c, None)),
        Effect::Cause(n) => Ok(to_general(c0, n, 0, 0)),
        Effect::Jump(target) => Ok(to_capability(cause, 0, c0, Some(target))),
        Effect::Link(cd, link, target) => Ok(to_capability(cause, cd, link, Some(target))),
        Effect::Load(size, signed, at, rd) => {
            let value = mem::load(flash, ram, at, size).ok_or(Fault::Nowhere)?;
            Ok(to_general(c0, cause, rd, num::extend(signed, size, value)))
        }
        Effect::Store(size, at, value) => {
            store::store(flash.len(), ram, tags, at, size, value)?;
            Ok(to_general(c0, cause, 0, 0))
        }
        Effect::LoadCapability(at, cd) => {
            let c = line::load(flash, ram, tags, at).ok_or(Fault::Nowhere)?;
            Ok(to_capability(cause, cd, c, None))
        }
        Effect::StoreCapability(at, c) => {
            capstore::store(flash.len(), ram, tags, at, c)?;
            Ok(to_general(c0, cause, 0, 0))
        }
    }
}
