// Tags: the tag of a line, of a place, and one set (01, "Memory").
#![tactic(auto)]

ghost use Rattle.std.specs.Prelude.{◌≡◌, false};
ghost use Rattle.manual.specs.Store.{bit, tag_of, tag_at, with_tag};

use manual::{LINE, Place};

// The tag of a line; a line past the last has none.
#[tactic(auto, using(std::proofs::lemmas::Bool::Decides::nat_tests), unfolding(manual::specs::Store::tag_of))]
pub fn tag_of(tags: &[u8], line: usize) -> bool
    ensures { result ≡ tag_of tags.now line }
{
    tags.get(line) == Some(&1)
}

// The tag that an access at a place loads: flash has no tags.
pub fn tag_at(tags: &[u8], place: Place) -> bool
    ensures { result ≡ tag_at tags.now place }
{
    match place {
        Place::Ram(at) => tag_of(tags, at / LINE),
        Place::Flash(_) | Place::Nowhere => false,
    }
}

// Sets the tag of a line, and no other; a line past the last has none to set.
#[tactic(auto, unfolding(manual::specs::Store::with_tag))]
pub fn with_tag(tags: &mut [u8], line: usize, tag: bool)
    ensures { tags.new ≡ with_tag tags.old line tag }
{
    // Not by `get_mut`: of what is written through it no contract says enough.
    if line < tags.len() {
        tags[line] = u8::from(tag);
    }
}
