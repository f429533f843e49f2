// The values that the definitions beside this file speak of: a start book, record by record, and what it gives.
#![tactic(auto)]

use manual::Cap;

// Where the body of a record lies: its first byte, and how many bytes it has.
#[derive(Clone, Copy)]
pub struct Body {
    pub start: usize,
    pub bytes: usize,
}

// What a body says: a capability register or PCC (32), a general register, a line with its tag.
#[derive(Clone, Copy)]
pub enum Entry {
    Capability(u8, Cap),
    General(u8, u64),
    Line(u64, bool),
}

// The number of PCC in a record.
pub const PCC: u8 = 32;

// One record of the walk: where it ends, and what it says.
#[derive(Clone, Copy)]
pub struct Record {
    pub end: usize,
    pub entry: Entry,
}
