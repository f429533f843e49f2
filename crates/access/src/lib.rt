// The test of an access through a capability: exact sums, then the address (01, "Access and fetch").
#![tactic(auto)]

ghost use Rattle.std.specs.Prelude.{◌≡◌, ℕ, ◌+◌, ◌-◌, ◌^◌, ◌≤◌, ◌<◌, eqb};
ghost use Rattle.manual.specs.Number.{bytes_in};
ghost use Rattle.manual.specs.Sum.{net, offset_of};
ghost use Rattle.manual.specs.Access.{sum_of, aligned, placed_at, access_of, placed};

use manual::{Address, Cap, Fault, LENGTH, Named, Offset, Size, Unfit};

// offset + up - down.
#[tactic(auto, using(manual::proofs::Sums::net_at, manual::proofs::Sums::net_high, manual::proofs::Sums::net_low))]
fn net_of(offset: u64, up: u64, down: u64) -> Option<Offset>
    ensures { result ≡ net (offset + up) down }
{
    let sum = if down <= up {
        offset.checked_add(up - down)
    } else {
        offset.checked_sub(down - up)
    };
    sum.map(Offset)
}

// The exact sum of an offset and two signed numbers, which come as their 64 bits.
// By cases, since a part of the sum may leave 64 bits where the whole comes back.
#[tactic(auto, using(manual::proofs::Sums::up_up, manual::proofs::Sums::up_down, manual::proofs::Sums::down_up, manual::proofs::Sums::down_down, manual::proofs::Sums::below))]
fn sum_of(offset: Offset, rt: u64, immediate: u64) -> Option<Offset>
    ensures { result ≡ offset_of (sum_of offset.0 rt immediate) }
{
    let o = offset.0;
    if rt < 0x8000_0000_0000_0000 {
        if immediate < 0x8000_0000_0000_0000 {
            net_of(o, rt + immediate, 0)
        } else {
            net_of(o, rt, u64::MAX - immediate + 1)
        }
    } else {
        let d = u64::MAX - rt + 1;
        if immediate < 0x8000_0000_0000_0000 {
            net_of(o, immediate, d)
        } else if d <= o {
            net_of(o - d, 0, u64::MAX - immediate + 1)
        } else {
            None
        }
    }
}

// Whether an address is a multiple of a size; by a match, so that no step divides by a number that varies.
pub fn is_aligned(a: Address, size: Size) -> bool
    ensures { result ≡ aligned a.0 (bytes_in size) }
{
    match size {
        Size::One => true,
        Size::Two => a.0 % 2 == 0,
        Size::Four => a.0 % 4 == 0,
        Size::Eight => a.0 % 8 == 0,
        Size::Line => a.0 % 32 == 0,
    }
}

// The same for an offset that the sum gave.
#[tactic(auto, using(std::proofs::lemmas::Bool::Decides::nat_tests), unfolding(manual::specs::Access::placed_at))]
fn placed(base: Address, length: u64, offset: Offset, size: Size) -> Result<Address, Unfit>
    ensures { result ≡ placed_at base.0 length offset.0 (bytes_in size) }
{
    let o = offset.0;
    let n = num::size_bytes(size) as u64;
    if length < n || length - n < o || cap::past_top(base, o + n) {
        return Err(Unfit::Length);
    }
    let a = num::address_at(base, offset);
    if is_aligned(a, size) {
        Ok(a)
    } else {
        Err(Unfit::Misaligned)
    }
}

// An access of this size through `c`, at a register and an immediate that come as their 64 bits.
#[tactic(auto, using(manual::proofs::Sums::sum_in, manual::proofs::Sums::sum_out), unfolding(manual::specs::Access::access_of))]
pub fn test(c: Cap, rt: u64, immediate: u64, size: Size) -> Result<Address, Unfit>
    ensures { result ≡ access_of c rt immediate (bytes_in size) }
{
    let offset = sum_of(c.offset, rt, immediate).ok_or(Unfit::Length)?;
    placed(c.base, c.length, offset, size)
}

// Where an access of this size through `c` lies, or its stop; which one misalignment gives is for the instruction.
pub fn lies(
    c: Named,
    rt: u64,
    immediate: u64,
    size: Size,
    misaligned: Fault,
) -> Result<Address, Fault>
    ensures { result ≡ placed (access_of c.cap rt immediate (bytes_in size)) c.number misaligned }
{
    test(c.cap, rt, immediate, size).map_err(|unfit| match unfit {
        Unfit::Length => Fault::Raise(LENGTH, c.number),
        Unfit::Misaligned => misaligned,
    })
}
