// The shorter way of a run: the words it may take, where a step of it stands, and where it ends.
#![tactic(auto)]

ghost use Rattle.std.specs.Prelude.{◌≡◌};
ghost use Rattle.manual.specs.Narrow.{set_offset};
ghost use Rattle.way.specs.Way.{light_word, on_from, turned_by, waiting_at};

use manual::{Cap, Machine, Offset};

// A step's PC, whether it is the slot of a branch, and where that branch leads. No Option of a target: the definitions of a run by the way speak of both.
#[derive(Clone, Copy)]
pub struct Way {
    pub at: Offset,
    pub slot: bool,
    pub target: Offset,
}

// Past a step that does not branch: at the target after a branch's slot, or 4 bytes on.
pub fn on(way: Way) -> Way
    ensures { result ≡ on_from way }
{
    let at = if way.slot {
        way.target
    } else {
        num::moved(way.at, 4)
    };
    Way {
        at,
        slot: false,
        ..way
    }
}

// Past a branch that is taken: in its slot.
pub fn turned(way: Way, words: u64) -> Way
    ensures { result ≡ turned_by way words }
{
    let target = branch::branch_offset(way.at, words);
    Way {
        slot: true,
        target,
        ..on(way)
    }
}

// A branch within PCC, or no jump.
fn waiting(way: Way, pcc: Cap) -> Option<Cap>
    ensures { result ≡ waiting_at way.slot pcc way.target }
{
    way.slot.then(|| narrow::set_offset(pcc, way.target))
}

// The machine where a step of the way stands. PCC keeps all but its offset, since a branch keeps the rest.
pub fn come_to(m: &mut Machine, way: Way)
    ensures { m.new ≡ record { general = m.old.general; caps = m.old.caps; pcc = set_offset m.old.pcc way.at; pending = waiting_at way.slot m.old.pcc way.target; cause = m.old.cause } }
{
    m.pending = waiting(way, m.pcc);
    m.pcc = narrow::set_offset(m.pcc, way.at);
}

// Whether the shorter way may make a word's step. Nothing hangs on it but time: a step is the same by either way.
#[tactic(auto, using(std::proofs::lemmas::Bool::Decides::nat_tests), unfolding(crate::specs::Way::light_word))]
pub fn is_light(word: u32) -> bool
    ensures { result ≡ light_word word }
{
    let major = word / 0x400_0000;
    let number = isa::field::<21>(word);
    major != 18 || matches!(number, 0..=6 | 10..=15)
}
