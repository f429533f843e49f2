// The permissions of a capability, and the registers they open (004, chapter 3).
#![tactic(auto)]

ghost use Rattle.std.specs.Prelude.{◌≡◌, ◌+◌, ◌^◌, ltb};
ghost use Rattle.manual.specs.Cap.{permission_table, permitted, in_widths, access_bit, register_open};

use manual::Address;

// The permissions of 004, by their numbers: no enum, since `permits` promises its answer for each number, past 31 too.
pub const GLOBAL: u32 = 0;

pub const EXECUTE: u32 = 1;

pub const LOAD: u32 = 2;

pub const STORE: u32 = 3;

pub const LOAD_CAPABILITY: u32 = 4;

pub const STORE_CAPABILITY: u32 = 5;

pub const STORE_LOCAL: u32 = 6;

pub const SEAL: u32 = 7;

pub const ACCESS_EPCC: u32 = 10;

pub const ACCESS_KDC: u32 = 11;

pub const ACCESS_KCC: u32 = 12;

pub const ACCESS_KR1C: u32 = 13;

pub const ACCESS_KR2C: u32 = 14;

// No permission has this number, so it is never granted.
pub const NO_PERMISSION: u32 = 32;

// The numbers named above are those of the definitions.
pub fn permission_table() -> [u32; 14]
    ensures { result ≡ permission_table }
{
    [
        GLOBAL,
        EXECUTE,
        LOAD,
        STORE,
        LOAD_CAPABILITY,
        STORE_CAPABILITY,
        STORE_LOCAL,
        SEAL,
        ACCESS_EPCC,
        ACCESS_KDC,
        ACCESS_KCC,
        ACCESS_KR1C,
        ACCESS_KR2C,
        NO_PERMISSION,
    ]
}

// Whether a permissions field grants the permission of this number.
#[tactic(auto, unfolding(manual::specs::Cap::permitted))]
pub fn permits(perms: u32, number: u32) -> bool
    ensures { result ≡ permitted perms number }
{
    number < 32 && (perms >> number) % 2 == 1
}

// Whether the fields that have no integer type of their own are within their widths.
pub fn in_widths(perms: u32, otype: u32) -> bool
    ensures { result ≡ in_widths perms otype }
{
    perms < 0x8000_0000 && otype < 0x100_0000
}

// Whether so many bytes from an address on end past 2^64.
pub fn past_top(base: Address, bytes: u64) -> bool
    ensures { result ≡ ltb (2 ^ 64) (base.0 + bytes) }
{
    let b = base.0;
    b != 0 && u64::MAX - bytes < b - 1
}

// The permission of PCC that opens a register from C27 on.
#[tactic(auto, unfolding(manual::specs::Cap::access_bit))]
pub fn access_bit(register: u8) -> u32
    ensures { result ≡ access_bit register }
{
    match register {
        27 => ACCESS_KR1C,
        28 => ACCESS_KR2C,
        29 => ACCESS_KCC,
        30 => ACCESS_KDC,
        31 => ACCESS_EPCC,
        _ => NO_PERMISSION,
    }
}

// Whether a PCC with these permissions may name a capability register.
#[tactic(auto, using(std::proofs::lemmas::Bool::Decides::nat_tests), unfolding(manual::specs::Cap::register_open))]
pub fn register_open(perms: u32, register: u8) -> bool
    ensures { result ≡ register_open perms register }
{
    register < 27 || permits(perms, access_bit(register))
}
