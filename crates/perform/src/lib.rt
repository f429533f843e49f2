// A step's turn: what its fetched word plans, carried out.
#![tactic(auto)]

ghost use Rattle.std.specs.Prelude.{◌≡◌};
ghost use Rattle.manual.specs.Act.{planned_of, act_turn, act_ram, act_tags};

use manual::{Change, Effect, Fault, Operands};

// Fetch, then 7, then the instruction's own.
#[tactic(auto, unfolding(manual::specs::Act::planned_of))]
fn plan_word(o: Operands, slot: bool, fetched: Result<u32, Fault>) -> Result<Effect, Fault>
    ensures { result ≡ planned_of o slot fetched }
{
    let word = fetched?;
    if slot && isa::is_jump_word(word) {
        return Err(Fault::Pending);
    }
    plan::plan(o, decode::decode(word))
}

pub fn act(
    o: Operands,
    slot: bool,
    fetched: Result<u32, Fault>,
    flash: &[u8],
    ram: &mut [u8],
    tags: &mut [u8],
) -> Result<Change, Fault>
    ensures value { result ≡ act_turn o slot fetched flash.now ram.old tags.old }
    ensures ram_after { ram.new ≡ act_ram o slot fetched flash.now ram.old }
    ensures tags_after { tags.new ≡ act_tags o slot fetched flash.now ram.old tags.old }
{
    let effect = plan_word(o, slot, fetched)?;
    effect::carry_out(o.c0.cap, o.cause, effect, flash, ram, tags)
}
