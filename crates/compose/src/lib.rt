// The records of a start book as its writer spells them: whether there is one, and each put by one function (01, "The start book").
#![tactic(auto)]

ghost use Rattle.std.specs.Prelude.{◌≡◌, ◌+◌, ◌-◌, ◌^◌, ◌++◌, min, length};
ghost use Rattle.manual.specs.Store.{put};
ghost use Rattle.pages.specs.Compose.{fields, record_of, line_body, zero_cap, zero_bytes};

use manual::Cap;

// The bytes of a record of kind 3 before the line's own.
pub const LINE_HEAD: usize = 12;

// Whether every field of a register is zero: the writer does not name it.
pub fn is_zero(c: Cap) -> bool
    ensures { result ≡ zero_cap c }
{
    c == Cap::default()
}

// Whether every byte is zero.
pub fn all_zero(bytes: &[u8]) -> bool
    ensures { result ≡ zero_bytes bytes.now }
{
    bytes.iter().all(|b| *b == 0)
}

// How many bytes a record has: two that tell how long its body is, its fields, and so many behind them; the largest number where none is large enough.
fn record_size(values: &[(usize, u64)], bytes: usize) -> usize
    ensures { result ≡ min (2 ^ 64 - 1) (2 + (length (fields values.now) + bytes)) }
{
    let mut size = bytes.saturating_add(2);
    for (width, _) in values {
        size = size.saturating_add(*width);
    }
    size
}

// Here and in the crates above a buffer comes with a place, since each promises the whole buffer: `put out.old at ..`.
// A record: the length of its body, fields that each have a number of bytes and a value, and bytes behind them; nothing where it does not fit.
pub fn put_record(out: &mut [u8], at: usize, values: &[(usize, u64)], bytes: &[u8])
    ensures { out.new ≡ put out.old at (record_of (fields values.now ++ bytes.now)) }
{
    let size = record_size(values, bytes.len());
    if mem::within(at as u64, size, out.len()) {
        store::put_be(out, at, 2, (size - 2) as u64);
        let mut end = at + 2;
        for (width, value) in values {
            store::put_be(out, end, *width, *value);
            end += *width;
        }
        store::put_bytes(out, end, bytes);
    }
}

// Kind 3: the bytes of a line, and its tag; nothing where the record does not fit.
pub fn put_line(out: &mut [u8], at: usize, address: u64, tag: bool, bytes: &[u8])
    ensures { out.new ≡ put out.old at (record_of (line_body address tag bytes.now)) }
{
    let head = [(1, 3), (8, address), (1, u64::from(tag))];
    put_record(out, at, &head, bytes);
}
