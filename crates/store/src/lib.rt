// Stores: what is written, and no other byte or tag.
#![tactic(auto)]

ghost use Rattle.std.specs.Prelude.{◌≡◌, false, length};
ghost use Rattle.manual.specs.Number.{to_be, bytes_in};
ghost use Rattle.manual.specs.Place.{place_of};
ghost use Rattle.manual.specs.Store.{put, answer_at, ram_after, tags_after};

use manual::{Address, Fault, LINE, Place, Size};

// Writes the lowest `size` bytes of `v` at `at`, lending that part to `store_be`; nothing where they do not fit.
pub fn put_be(buf: &mut [u8], at: usize, size: usize, v: u64)
    ensures { buf.new ≡ put buf.old at (to_be size v) }
{
    if mem::within(at as u64, size, buf.len()) {
        num::store_be(&mut buf[at..at + size], v);
    }
}

// Writes bytes at a place; nothing where they do not fit.
pub fn put_bytes(buf: &mut [u8], at: usize, bytes: &[u8])
    ensures { buf.new ≡ put buf.old at bytes.now }
{
    if mem::within(at as u64, bytes.len(), buf.len()) {
        buf[at..at + bytes.len()].copy_from_slice(bytes);
    }
}

// A data store into the RAM: its bytes, and the tag of the line hit is cleared; elsewhere nothing changes.
pub fn store(
    flash: usize,
    ram: &mut [u8],
    tags: &mut [u8],
    a: Address,
    size: Size,
    v: u64,
) -> Result<(), Fault>
    ensures value { result ≡ answer_at (place_of flash (length ram.old) a (bytes_in size)) }
    ensures ram_after { ram.new ≡ ram_after (place_of flash (length ram.old) a (bytes_in size)) ram.old (to_be (bytes_in size) v) }
    ensures tags_after { tags.new ≡ tags_after (place_of flash (length ram.old) a (bytes_in size)) tags.old false }
{
    let n = num::size_bytes(size);
    let place = mem::place_of(flash, ram.len(), a, n);
    match place {
        Place::Flash(_) => Err(Fault::IntoFlash),
        Place::Nowhere => Err(Fault::Nowhere),
        Place::Ram(at) => {
            put_be(ram, at, n, v);
            tags::with_tag(tags, at / LINE, false);
            Ok(())
        }
    }
}
