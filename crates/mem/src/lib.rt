// The two memories: where an access lies, and its bytes as a part of one or the other.
#![tactic(auto)]

ghost use Rattle.std.specs.Prelude.{◌≡◌, ◌+◌, leb};
ghost use Rattle.manual.specs.Number.{bytes_in};
ghost use Rattle.manual.specs.Place.{memory_fits, tags_fit, place_of, bytes_of, number_of, load_of};

use manual::{Address, LINE, Place, Size};

pub const RAM_BASE: u64 = 0x10_0000;

pub const MEMORY_MOST: usize = 65536;

// Whether a flash or a RAM may have this many bytes.
pub fn memory_fits(bytes: usize) -> bool
    ensures { result ≡ memory_fits bytes }
{
    bytes % LINE == 0 && bytes <= MEMORY_MOST
}

// Whether so many tags are one for each line of a RAM of so many bytes.
pub fn tags_fit(ram: usize, tags: usize) -> bool
    ensures { result ≡ tags_fit ram tags }
{
    tags == ram / LINE
}

// Whether the `size` bytes at `at` lie within `len` bytes.
pub fn within(at: u64, size: usize, len: usize) -> bool
    ensures { result ≡ leb (at + size) len }
{
    size <= len && at as usize <= len - size
}

// Where the `size` bytes at an address lie, in a flash and a RAM of these lengths.
#[tactic(auto, using(std::proofs::lemmas::Bool::Decides::nat_tests), unfolding(manual::specs::Place::place_of))]
pub fn place_of(flash: usize, ram: usize, a: Address, size: usize) -> Place
    ensures { result ≡ place_of flash ram a size }
{
    let at = a.0;
    if within(at, size, flash) {
        Place::Flash(at as usize)
    } else if RAM_BASE <= at && within(at - RAM_BASE, size, ram) {
        Place::Ram((at - RAM_BASE) as usize)
    } else {
        Place::Nowhere
    }
}

// The bytes of an access as a part of the flash or of the RAM, or no byte where it lies in neither.
#[tactic(auto, using(manual::proofs::Places::flash_holds, manual::proofs::Places::ram_holds), unfolding(manual::specs::Place::bytes_of))]
pub fn bytes_of<'a>(flash: &'a [u8], ram: &'a [u8], a: Address, size: usize) -> &'a [u8]
    ensures { result.now ≡ bytes_of flash.now ram.now a size }
{
    match place_of(flash.len(), ram.len(), a, size) {
        Place::Flash(i) => &flash[i..i + size],
        Place::Ram(i) => &ram[i..i + size],
        Place::Nowhere => &[],
    }
}

// The number in a part that was handed out; a part of another length was not.
#[tactic(auto, unfolding(manual::specs::Place::number_of))]
fn number_of(part: &[u8], size: usize) -> Option<u64>
    ensures { result ≡ number_of size part.now }
{
    if part.len() == size {
        Some(num::load_be(part))
    } else {
        None
    }
}

// A data load from either memory.
pub fn load<'a>(flash: &'a [u8], ram: &'a [u8], a: Address, size: Size) -> Option<u64>
    ensures { result ≡ load_of flash.now ram.now a (bytes_in size) }
{
    let n = num::size_bytes(size);
    let part = bytes_of(flash, ram, a, n);
    number_of(part, n)
}
