// The checksums of a line, as the second program makes them.
#![tactic(auto)]

ghost use Rattle.std.specs.Prelude.{◌≡◌};
ghost use Rattle.manual.specs.Number.{to_be};
ghost use Rattle.sums.specs.Sums.{sum_with, checksum, cap_bytes, pending_bytes, machine_bytes};

use manual::{Cap, Machine};

// The checksum with these bytes more; below, with one byte, a capability's, and a pending jump's.
#[tactic(auto, unfolding(crate::specs::Sums::sum_with))]
fn add(sum: u32, bytes: &[u8]) -> u32
    ensures { result ≡ sum_with sum bytes.now }
{
    bytes.iter().fold(sum, |sum, byte| {
        sum.wrapping_mul(16_777_619).wrapping_add(u32::from(*byte))
    })
}

#[tactic(auto, using(crate::proofs::Sums::be_byte))]
fn add_byte(sum: u32, byte: u8) -> u32
    ensures { result ≡ sum_with sum (to_be 1 byte) }
{
    add(sum, &[byte])
}

fn add_cap(sum: u32, c: Cap) -> u32
    ensures { result ≡ sum_with sum (cap_bytes c) }
{
    let sum = add_byte(sum, u8::from(c.tag));
    let sum = add_byte(sum, u8::from(c.sealed));
    let sum = add_byte(sum, c.spare);
    let sum = add(sum, &c.otype.to_be_bytes());
    let sum = add(sum, &c.perms.to_be_bytes());
    let sum = add(sum, &c.base.0.to_be_bytes());
    let sum = add(sum, &c.length.to_be_bytes());
    add(sum, &c.offset.0.to_be_bytes())
}

fn add_pending(sum: u32, pending: Option<Cap>) -> u32
    ensures { result ≡ sum_with sum (pending_bytes pending) }
{
    match pending {
        None => add_byte(sum, 0),
        Some(c) => add_cap(add_byte(sum, 1), c),
    }
}

// The checksum of a machine; below, of bytes.
pub fn sum_machine(m: Machine) -> u64
    ensures { result ≡ checksum (machine_bytes m) }
{
    let sum = m
        .general
        .iter()
        .fold(1, |sum, value| add(sum, &value.to_be_bytes()));
    let sum = m.caps.iter().fold(sum, |sum, c| add_cap(sum, *c));
    let sum = add_pending(add_cap(sum, m.pcc), m.pending);
    u64::from(add(sum, &m.cause.to_be_bytes()))
}

pub fn sum_bytes(bytes: &[u8]) -> u64
    ensures { result ≡ checksum bytes.now }
{
    u64::from(add(1, bytes))
}
