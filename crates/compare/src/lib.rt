// CPtrCmp (004).
#![tactic(auto)]

ghost use Rattle.std.specs.Prelude.{◌≡◌, Bool, cond, not};
ghost use Rattle.manual.specs.Checks.{settle};
ghost use Rattle.manual.specs.Compare.{same_bool, cursor, is_equal, compares, c_ptr_cmp};

use manual::{Cap, Compare, Effect, Fault, Named};

// (base + offset) mod 2^64.
fn cursor(c: Cap) -> u64
    ensures { result ≡ cursor c }
{
    num::address_at(c.base, c.offset).0
}

#[tactic(auto, unfolding(manual::specs::Compare::is_equal))]
fn is_equal(c: Cap, d: Cap) -> bool
    ensures { result ≡ is_equal c d }
{
    c.tag == d.tag && cursor(c) == cursor(d)
}

// By an order of the cursors; where the tags differ the untagged one is less.
fn is_less<F: Fn(u64, u64) -> bool>(c: Cap, d: Cap, less: F) -> bool
    requires { F.IsAlwaysCallable less }
    ensures { (r : Bool) × F.post less (cursor c) (cursor d) r × (result ≡ cond (same_bool c.tag d.tag) r (not c.tag)) }
{
    let in_order = less(cursor(c), cursor(d));
    if c.tag == d.tag { in_order } else { !c.tag }
}

#[tactic(auto, unfolding(manual::specs::Compare::compares, manual::specs::Compare::is_less, manual::specs::Compare::is_less_signed))]
fn do_compare(kind: Compare, c: Cap, d: Cap) -> bool
    ensures { result ≡ compares kind c d }
{
    match kind {
        Compare::Eq => is_equal(c, d),
        Compare::Ne => !is_equal(c, d),
        Compare::Lt => is_less(c, d, compute::signed_less),
        Compare::Le => is_less(c, d, compute::signed_less) || is_equal(c, d),
        Compare::Ltu => is_less(c, d, |x, y| x < y),
        Compare::Leu => is_less(c, d, |x, y| x < y) || is_equal(c, d),
    }
}

#[tactic(auto, unfolding(manual::specs::Compare::c_ptr_cmp, manual::specs::Checks::settle))]
pub fn ptr_compare(kind: Compare, pcc: Cap, rd: u8, cb: Named, ct: Named) -> Result<Effect, Fault>
    ensures { result ≡ settle (c_ptr_cmp kind pcc rd cb ct) }
{
    checks::opened(pcc.perms, cb.number)?;
    checks::opened(pcc.perms, ct.number)?;
    let value = u64::from(do_compare(kind, cb.cap, ct.cap));
    Ok(Effect::General(rd, value))
}
