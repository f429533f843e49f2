// Capability stores: the line's 32 bytes and its tag.
#![tactic(auto)]

ghost use Rattle.std.specs.Prelude.{◌≡◌, length};
ghost use Rattle.manual.specs.Place.{place_of};
ghost use Rattle.manual.specs.Store.{answer_at, ram_after, tags_after};
ghost use Rattle.manual.specs.Line.{first_word, encode};

use manual::{Address, Cap, Fault, LINE, Place};

// From the top: spare, otype, permissions, sealed, each in its width.
#[tactic(auto, unfolding(manual::specs::Line::first_word))]
fn first_word(c: Cap) -> u64
    ensures { result ≡ first_word c }
{
    u64::from(c.spare) * 0x100_0000_0000_0000
        + u64::from(c.otype % 0x100_0000) * 0x1_0000_0000
        + u64::from(c.perms % 0x8000_0000) * 2
        + u64::from(c.sealed)
}

// The 32 bytes of a capability, over the whole line.
fn write_line(line: &mut [u8], c: Cap)
    requires { length line.old ≡ 32 }
    ensures { line.new ≡ encode c }
{
    let first = first_word(c);
    let second = num::address_at(c.base, c.offset).0;
    let base = c.base.0;
    let length = c.length;
    store::put_be(line, 0, 8, first);
    store::put_be(line, 8, 8, second);
    store::put_be(line, 16, 8, base);
    store::put_be(line, 24, 8, length);
}

// A capability store: the line's bytes and its tag; outside RAM nothing changes.
pub fn store(flash: usize, ram: &mut [u8], tags: &mut [u8], a: Address, c: Cap) -> Result<(), Fault>
    ensures value { result ≡ answer_at (place_of flash (length ram.old) a 32) }
    ensures ram_after { ram.new ≡ ram_after (place_of flash (length ram.old) a 32) ram.old (encode c) }
    ensures tags_after { tags.new ≡ tags_after (place_of flash (length ram.old) a 32) tags.old c.tag }
{
    let place = mem::place_of(flash, ram.len(), a, LINE);
    match place {
        Place::Flash(_) => Err(Fault::IntoFlash),
        Place::Nowhere => Err(Fault::Nowhere),
        Place::Ram(at) => {
            let e = at + LINE;
            write_line(&mut ram[at..e], c);
            tags::with_tag(tags, at / LINE, c.tag);
            Ok(())
        }
    }
}
