// Branches: BEQ, BNE, CBTU and CBTS.
#![tactic(auto)]

ghost use Rattle.std.specs.Prelude.{◌≡◌, ◌+◌, leb};
ghost use Rattle.manual.specs.Checks.{settle};
ghost use Rattle.manual.specs.Branch.{wanted, bytes_off, branch_offset, branch_to, not_past, branch, branch_tag};

use manual::{Cap, Effect, Fault, LENGTH, NO_REGISTER, Named, Offset};

// Whether the branch is taken: its test came out as it wants.
pub fn is_wanted(want: bool, test: bool) -> bool
    ensures { result ≡ wanted want test }
{
    want == test
}

// 4 * sign_extend(offset) of a branch, as 64 bits.
fn bytes_off(words: u64) -> u64
    ensures { result ≡ bytes_off words }
{
    words % 0x4000_0000_0000_0000 * 4
}

// The target of a branch: so many words from the slot.
#[tactic(auto, unfolding(manual::specs::Number::moved_by))]
pub fn branch_offset(pc: Offset, words: u64) -> Offset
    ensures { result ≡ branch_offset pc words }
{
    num::moved(num::moved(pc, 4), bytes_off(words))
}

// PCC with the target as its offset.
#[tactic(auto, unfolding(manual::specs::Branch::branch_to))]
fn branch_target(pcc: Cap, words: u64) -> Cap
    ensures { result ≡ branch_to pcc words }
{
    let pc = pcc.offset;
    narrow::set_offset(pcc, branch_offset(pc, words))
}

// a + b <= limit, exactly.
#[tactic(auto, using(std::proofs::lemmas::Bool::Decides::nat_tests))]
pub fn sum_within(a: u64, b: u64, limit: u64) -> bool
    ensures { result ≡ leb (a + b) limit }
{
    a.checked_add(b).is_some_and(|sum| sum <= limit)
}

// Whether the target of a branch lies at or below the length; below 0 it does.
#[tactic(auto, using(std::proofs::lemmas::Bool::Decides::nat_tests), unfolding(manual::specs::Branch::not_past))]
fn is_not_past(pcc: Cap, words: u64) -> bool
    ensures { result ≡ not_past pcc.offset.0 (bytes_off words) pcc.length }
{
    let pc = pcc.offset.0;
    let length = pcc.length;
    let bytes = bytes_off(words);
    if bytes < 0x8000_0000_0000_0000 {
        return bytes <= length && sum_within(pc, 4, length - bytes);
    }
    pc <= length || pc - length <= u64::MAX - bytes - 3
}

// BEQ and BNE.
#[tactic(auto, unfolding(manual::specs::Branch::branch, manual::specs::Checks::settle))]
pub fn plan_branch(equal: bool, words: u64, pcc: Cap, rs: u64, rt: u64) -> Result<Effect, Fault>
    ensures { result ≡ settle (branch equal words pcc rs rt) }
{
    if is_wanted(equal, rs == rt) {
        Ok(Effect::Jump(branch_target(pcc, words)))
    } else {
        Ok(Effect::Nothing)
    }
}

// CBTS and CBTU.
#[tactic(auto, unfolding(manual::specs::Branch::branch_tag, manual::specs::Checks::settle))]
pub fn branch_tag(set: bool, words: u64, pcc: Cap, cb: Named) -> Result<Effect, Fault>
    ensures { result ≡ settle (branch_tag set words pcc cb) }
{
    checks::opened(pcc.perms, cb.number)?;
    if !is_wanted(set, cb.cap.tag) {
        return Ok(Effect::Nothing);
    }
    checks::that(is_not_past(pcc, words), LENGTH, NO_REGISTER)?;
    Ok(Effect::Jump(branch_target(pcc, words)))
}
