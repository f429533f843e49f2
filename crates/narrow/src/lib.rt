// Capabilities derived from others: what each narrowing instruction of 004 leaves, once its checks have passed.
#![tactic(auto)]

ghost use Rattle.std.specs.Prelude.{◌≡◌};
ghost use Rattle.manual.specs.Narrow.{null, and_perms, inc_base, set_length, set_offset, inc_offset, clear_tag, sealed_by, and_global, unsealed_by, from_ptr};

use cap::GLOBAL;
use manual::{Address, Cap, Offset};

pub fn no_cap() -> Cap
    ensures { result ≡ null }
{
    Cap::default()
}

// CAndPerm: the permissions that the mask has too.
#[tactic(auto, unfolding(manual::specs::Narrow::and_perms))]
pub fn and_perms(c: Cap, mask: u64) -> Cap
    ensures { result ≡ and_perms c mask }
{
    Cap {
        perms: c.perms & (mask % 0x8000_0000) as u32,
        ..c
    }
}

// CIncBase: the range without its first bytes.
#[tactic(auto, unfolding(manual::specs::Number::plus_mod, manual::specs::Number::minus_mod, manual::specs::Narrow::inc_base))]
pub fn inc_base(c: Cap, by: u64) -> Cap
    ensures { result ≡ inc_base c by }
{
    Cap {
        base: num::address_at(c.base, Offset(by)),
        length: c.length.wrapping_sub(by),
        ..c
    }
}

// CSetLen.
pub fn set_length(c: Cap, length: u64) -> Cap
    ensures { result ≡ set_length c length }
{
    Cap { length, ..c }
}

// CSetOffset.
pub fn set_offset(c: Cap, offset: Offset) -> Cap
    ensures { result ≡ set_offset c offset }
{
    Cap { offset, ..c }
}

// CIncOffset.
#[tactic(auto, unfolding(manual::specs::Number::plus_mod, manual::specs::Narrow::inc_offset))]
pub fn inc_offset(c: Cap, by: u64) -> Cap
    ensures { result ≡ inc_offset c by }
{
    Cap {
        offset: num::moved(c.offset, by),
        ..c
    }
}

// CClearTag.
pub fn clear_tag(c: Cap) -> Cap
    ensures { result ≡ clear_tag c }
{
    Cap { tag: false, ..c }
}

// CSeal: the type is where `by` points.
#[tactic(auto, unfolding(manual::specs::Number::plus_mod, manual::specs::Narrow::sealed_by))]
pub fn seal(c: Cap, by: Cap) -> Cap
    ensures { result ≡ sealed_by c by }
{
    let a = num::address_at(by.base, by.offset);
    Cap {
        sealed: true,
        otype: (a.0 % 0x100_0000) as u32,
        ..c
    }
}

// Global stays only where both have it.
#[tactic(auto, unfolding(manual::specs::Narrow::and_global))]
fn and_global(perms: u32, by: u32) -> u32
    ensures { result ≡ and_global perms by }
{
    if cap::permits(by, GLOBAL) {
        perms
    } else {
        perms / 2 * 2
    }
}

// CUnseal: unsealed, of no type.
#[tactic(auto, unfolding(manual::specs::Narrow::unsealed_by))]
pub fn unseal(c: Cap, by: Cap) -> Cap
    ensures { result ≡ unsealed_by c by }
{
    Cap {
        sealed: false,
        otype: 0,
        perms: and_global(c.perms, by.perms),
        ..c
    }
}

// CFromPtr: nothing for the null pointer, else the range from it on.
#[tactic(auto, unfolding(manual::specs::Narrow::from_ptr))]
pub fn from_ptr(c: Cap, pointer: u64) -> Cap
    ensures { result ≡ from_ptr c pointer }
{
    if pointer == 0 {
        no_cap()
    } else {
        inc_base(c, pointer)
    }
}
