// A capability in the 32 bytes of a line, and back (01, "A capability").
#![tactic(auto)]

ghost use Rattle.std.specs.Prelude.{◌≡◌, length};
ghost use Rattle.manual.specs.Line.{decode, cap_in, load_cap};

use manual::{Address, Cap, LINE};

// The capability that 32 bytes hold, with this tag.
#[tactic(auto, unfolding(manual::specs::Line::word, manual::specs::Line::from_words, manual::specs::Line::decode))]
fn read_line(line: &[u8], tag: bool) -> Cap
    requires { length line.now ≡ 32 }
    ensures { result ≡ decode tag line.now }
{
    let first = num::load_be(&line[0..8]);
    let second = num::load_be(&line[8..16]);
    let base = num::load_be(&line[16..24]);
    let length = num::load_be(&line[24..32]);
    let offset = num::offset_to(Address(base), Address(second));
    Cap {
        tag,
        sealed: first % 2 == 1,
        perms: (first / 2 % 0x8000_0000) as u32,
        otype: (first / 0x1_0000_0000 % 0x100_0000) as u32,
        spare: (first / 0x100_0000_0000_0000) as u8,
        base: Address(base),
        length,
        offset,
    }
}

// The capability in the bytes that were handed out; none where they are no line.
#[tactic(auto, unfolding(manual::specs::Line::cap_in))]
pub fn cap_in(part: &[u8], tag: bool) -> Option<Cap>
    ensures { result ≡ cap_in tag part.now }
{
    if part.len() == LINE {
        Some(read_line(part, tag))
    } else {
        None
    }
}

// A capability load: with the line's tag from RAM, untagged from flash.
#[tactic(auto, unfolding(manual::specs::Line::load_cap))]
pub fn load<'a>(flash: &'a [u8], ram: &'a [u8], tags: &[u8], a: Address) -> Option<Cap>
    ensures { result ≡ load_cap flash.now ram.now tags.now a }
{
    let place = mem::place_of(flash.len(), ram.len(), a, LINE);
    let tag = tags::tag_at(tags, place);
    let part = mem::bytes_of(flash, ram, a, LINE);
    cap_in(part, tag)
}
