// The word at PCC fetched, or why there is none (01, "Access and fetch").
#![tactic(auto)]

ghost use Rattle.std.specs.Prelude.{◌≡◌};
ghost use Rattle.manual.specs.Fetch.{fetch_of, word_of, ahead_of};

use manual::{Cap, Fault, NO_REGISTER, Named, Size};

// The word at PCC, or why there is none.
#[tactic(auto, unfolding(manual::specs::Fetch::fetch_of))]
pub fn fetch<'a>(flash: &'a [u8], ram: &'a [u8], pcc: Cap) -> Result<u32, Fault>
    ensures { result ≡ fetch_of flash.now ram.now pcc }
{
    let here = Named {
        cap: pcc,
        number: NO_REGISTER,
    };
    checks::tagged(here)?;
    checks::unsealed(here)?;
    checks::granted(here, cap::EXECUTE)?;
    let at = access::lies(here, 0, 0, Size::Four, Fault::Misaligned)?;
    let word = mem::load(flash, ram, at, Size::Four).ok_or(Fault::Nowhere)?;
    Ok((word % 0x1_0000_0000) as u32)
}

// The word that was fetched; 0 where there is none, as the definitions of a step name registers by it.
pub fn word_of(fetched: Result<u32, Fault>) -> u32
    ensures { result ≡ word_of fetched }
{
    fetched.unwrap_or(0)
}

// A word of a major opcode that no instruction has.
const RESERVED: u32 = 0x400_0000;

// The word of a step: fetch, then 7, then the word; a reserved one where the step stops before it.
pub fn ahead(fetched: Result<u32, Fault>, slot: bool) -> u32
    ensures { result ≡ ahead_of slot fetched }
{
    match fetched {
        Ok(word) if !(slot && isa::is_jump_word(word)) => word,
        _ => RESERVED,
    }
}
