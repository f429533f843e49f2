// Data loads and stores through a capability: where one lies, what it loads, what it leaves.
#![tactic(auto)]

ghost use Rattle.std.specs.Prelude.{◌≡◌};
ghost use Rattle.manual.specs.Number.{bytes_in};
ghost use Rattle.manual.specs.Access.{access_of};
ghost use Rattle.data.specs.Data.{Lands, Reached, loaded_at, stored_at, stores_ram, stores_tags};

use manual::{Address, Cap, Fault, Size};

// Below it four numbers sum without a carry out of 64 bits.
const NEAR: u64 = 0x4000_0000_0000_0000;

// Where an access lies, told only where nothing in it is large; then the test needs no cases.
fn near(c: Cap, rt: u64, immediate: u64, size: Size) -> Option<Address>
    ensures { Lands (access_of c rt immediate (bytes_in size)) result }
{
    let base = c.base.0;
    let offset = c.offset.0;
    let o = offset.wrapping_add(rt).wrapping_add(immediate);
    if base < NEAR
        && offset < NEAR
        && rt < NEAR
        && o < NEAR
        && o + num::size_bytes(size) as u64 <= c.length
    {
        let a = Address(base + o);
        return access::is_aligned(a, size).then_some(a);
    }
    None
}

// The same, only if every check before it passes; `opens` where PCC may name the register.
pub fn reached(
    permission: u32,
    size: Size,
    immediate: u64,
    opens: bool,
    c: Cap,
    rt: u64,
) -> Option<Address>
    ensures { Reached permission opens c rt immediate (bytes_in size) result }
{
    let granted = cap::permits(c.perms, permission);
    if opens && c.tag && !c.sealed && granted {
        return near(c, rt, immediate, size);
    }
    None
}

// What a load puts into its register.
pub fn loaded<'a>(
    lies: Option<Address>,
    size: Size,
    signed: bool,
    flash: &'a [u8],
    ram: &'a [u8],
) -> Option<u64>
    ensures { result ≡ loaded_at flash.now ram.now signed size lies }
{
    let value = mem::load(flash, ram, lies?, size)?;
    Some(num::extend(signed, size, value))
}

pub fn stored(
    lies: Option<Address>,
    size: Size,
    value: u64,
    flash: &[u8],
    ram: &mut [u8],
    tags: &mut [u8],
) -> Result<(), Fault>
    ensures value { result ≡ stored_at flash.now ram.old size lies }
    ensures ram_after { ram.new ≡ stores_ram flash.now ram.old size value lies }
    ensures tags_after { tags.new ≡ stores_tags flash.now ram.old tags.old size lies }
{
    let at = lies.ok_or(Fault::Nowhere)?;
    store::store(flash.len(), ram, tags, at, size, value)
}
