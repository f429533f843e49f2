// The record of a register as the writer of a start book spells it (01, "The start book").
#![tactic(auto)]

ghost use Rattle.std.specs.Prelude.{◌≡◌};
ghost use Rattle.manual.specs.Store.{put};
ghost use Rattle.pages.specs.Compose.{record_of, cap_body, general_body};

use manual::Cap;

// The bytes of a record of kind 1 and of kind 2.
pub const CAP_RECORD: usize = 38;

pub const GENERAL_RECORD: usize = 12;

// Kind 1: a capability register, or PCC; nothing where the record does not fit.
pub fn put_cap(out: &mut [u8], at: usize, number: u8, c: Cap)
    ensures { out.new ≡ put out.old at (record_of (cap_body number c)) }
{
    let values = [
        (1, 1),
        (1, u64::from(number)),
        (1, u64::from(c.tag)),
        (1, u64::from(c.sealed)),
        (1, u64::from(c.spare)),
        (3, u64::from(c.otype)),
        (4, u64::from(c.perms)),
        (8, c.base.0),
        (8, c.length),
        (8, c.offset.0),
    ];
    compose::put_record(out, at, &values, &[]);
}

// Kind 2: a general register; nothing where the record does not fit.
pub fn put_general(out: &mut [u8], at: usize, number: u8, value: u64)
    ensures { out.new ≡ put out.old at (record_of (general_body number value)) }
{
    let values = [(1, 2), (1, u64::from(number)), (8, value)];
    compose::put_record(out, at, &values, &[]);
}
