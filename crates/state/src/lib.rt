// What a step leaves in the registers.
#![tactic(auto)]

ghost use Rattle.std.specs.Prelude.{◌≡◌};
ghost use Rattle.manual.specs.State.{next_pcc, kept};

use manual::Cap;

// The PCC of the next step: the pending jump, or 4 bytes on.
pub fn next_pcc(pcc: Cap, pending: Option<Cap>) -> Cap
    ensures { result ≡ next_pcc pcc pending }
{
    pending.unwrap_or(narrow::inc_offset(pcc, 4))
}

// General register 0 stays 0.
#[tactic(auto, using(std::proofs::lemmas::Bool::Decides::nat_tests))]
pub fn kept_zero(rd: usize, value: u64) -> u64
    ensures { result ≡ kept rd value }
{
    if rd == 0 { 0 } else { value }
}
