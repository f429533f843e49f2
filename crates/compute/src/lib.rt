// The arithmetic of the MIPS instructions, on 64 bits.
#![tactic(auto)]

ghost use Rattle.std.specs.Prelude.{◌≡◌};
ghost use Rattle.manual.specs.Store.{bit};
ghost use Rattle.manual.specs.Compute.{signed_less, compute_of};

use manual::Alu;

// Whether a is below b as signed numbers: both are moved up by 2^63.
#[tactic(auto, unfolding(manual::specs::Number::plus_mod, manual::specs::Compute::signed_less))]
pub fn signed_less(a: u64, b: u64) -> bool
    ensures { result ≡ signed_less a b }
{
    let half = 0x8000_0000_0000_0000;
    a.wrapping_add(half) < b.wrapping_add(half)
}

// The result of an operation on rs and rt, or on rs and an immediate.
#[tactic(auto, unfolding(manual::specs::Number::plus_mod, manual::specs::Number::minus_mod, manual::specs::Compute::compute_of))]
pub fn compute(op: Alu, rs: u64, rt: u64) -> u64
    ensures { result ≡ compute_of op rs rt }
{
    match op {
        Alu::Daddu => rs.wrapping_add(rt),
        Alu::Dsubu => rs.wrapping_sub(rt),
        Alu::And => rs & rt,
        Alu::Or => rs | rt,
        Alu::Xor => rs ^ rt,
        Alu::Slt => u64::from(signed_less(rs, rt)),
        Alu::Sltu => u64::from(rs < rt),
        Alu::Dsllv => rt << (rs % 64),
        Alu::Dsrlv => rt >> (rs % 64),
    }
}
