// Numbers of 64 bits, offsets and addresses, and numbers in bytes.
#![tactic(auto)]

ghost use Rattle.std.specs.Prelude.{◌≡◌, ◌%◌, ◌^◌, ◌<◌, ◌≤◌, length};
ghost use Rattle.manual.specs.Number.{be, to_be, bytes_in, sign_extend, extend_from, address_at, offset_to, moved_by, extended};

use manual::{Address, LINE, Offset, Size};

// The address an offset leads to from a base, mod 2^64.
#[tactic(auto, unfolding(manual::specs::Number::plus_mod))]
pub fn address_at(base: Address, offset: Offset) -> Address
    ensures { result ≡ address_at base offset }
{
    Address(base.0.wrapping_add(offset.0))
}

// The offset that leads from a base to an address, mod 2^64.
#[tactic(auto, unfolding(manual::specs::Number::minus_mod))]
pub fn offset_to(base: Address, address: Address) -> Offset
    ensures { result ≡ offset_to base address }
{
    Offset(address.0.wrapping_sub(base.0))
}

// The offset so many bytes further, mod 2^64.
#[tactic(auto, unfolding(manual::specs::Number::plus_mod))]
pub fn moved(offset: Offset, by: u64) -> Offset
    ensures { result ≡ moved_by offset by }
{
    Offset(offset.0.wrapping_add(by))
}

// A function and no From: its name says that the number is of bytes.
pub fn size_bytes(size: Size) -> usize
    ensures { result ≡ bytes_in size }
{
    match size {
        Size::One => 1,
        Size::Two => 2,
        Size::Four => 4,
        Size::Eight => 8,
        Size::Line => LINE,
    }
}

// The number that bytes say, the most significant first, mod 2^64.
pub fn load_be(part: &[u8]) -> u64
    ensures { result ≡ be part.now % 2 ^ 64 }
{
    let mut v: u64 = 0;
    for b in part {
        v = v % 0x100_0000_0000_0000 * 256 + u64::from(*b);
    }
    v
}

// Writes the lowest bytes of `v` over the whole part, the most significant first.
// The loop has an index, since no contract says what is written through `iter_mut().rev()`.
pub fn store_be(part: &mut [u8], v: u64)
    ensures { part.new ≡ to_be (length part.old) v }
{
    let mut x = v;
    for i in (0..part.len()).rev() {
        part[i] = (x % 256) as u8;
        x = x / 256;
    }
}

// A number below `2 * HALF`, the weight of its top bit, with that bit carried on to 64 bits.
#[tactic(auto, unfolding(manual::specs::Number::extend_from))]
pub fn extend_from<const HALF: u64>(v: u64) -> u64
    ensures { result ≡ extend_from HALF v }
{
    if HALF == 0 {
        v
    } else if v / HALF % 2 == 1 {
        v % HALF + (u64::MAX - HALF + 1)
    } else {
        v % HALF
    }
}

// The lowest bytes of `v` as a signed number of this size, in 64 bits.
#[tactic(auto, unfolding(manual::specs::Number::sign_extend))]
pub fn sign_extend(v: u64, size: Size) -> u64
    ensures { result ≡ sign_extend (bytes_in size) v }
{
    match size {
        Size::One => extend_from::<0x80>(v),
        Size::Two => extend_from::<0x8000>(v),
        Size::Four => extend_from::<0x8000_0000>(v),
        Size::Eight => extend_from::<0x8000_0000_0000_0000>(v),
        Size::Line => v,
    }
}

// A loaded value, with its top bit carried on where the load is signed.
pub fn extend(signed: bool, size: Size, v: u64) -> u64
    ensures { result ≡ extended signed size v }
{
    if signed { sign_extend(v, size) } else { v }
}
