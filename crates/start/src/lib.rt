// Whether a start is accepted: the refusals 20, 21, 22 and 24, in this order (01, "Stop numbers").
#![tactic(auto)]

ghost use Rattle.std.specs.Prelude.{◌≡◌, Bool, not, ◌&&◌, ℕ, length, get_or};
ghost use Rattle.manual.specs.Accept.{line_fits, jump_fits, width_fits, jump_width, tag_bytes_fit, lines_fit, caps_fit, widths_fit, verdict_of};

use manual::{Address, Cap, Machine, Refusal};
use mem::RAM_BASE;

// No tag byte is above 1.
pub fn tag_bytes_fit(tags: &[u8]) -> bool
    ensures { result ≡ tag_bytes_fit tags.now }
{
    tags.iter().all(|tag| *tag <= 1)
}

// The capability of a tagged line ends by 2^64.
fn line_fits(ram: &[u8], tags: &[u8], line: usize) -> bool
    ensures { result ≡ line_fits ram.now tags.now line }
{
    let at = Address(RAM_BASE + (line % 0x100_0000) as u64 * 32);
    !tags::tag_of(tags, line) || accept::loaded_fits(line::load(&ram[..0], ram, tags, at))
}

pub fn lines_fit(ram: &[u8], tags: &[u8]) -> bool
    ensures { result ≡ lines_fit ram.now tags.now }
{
    (0..tags.len()).all(|line| line_fits(ram, tags, line))
}

pub fn caps_fit(caps: [Cap; 32]) -> bool
    ensures { result ≡ caps_fit caps }
{
    caps.iter().all(|c| accept::top_fits(*c))
}

fn width_fits(c: Cap) -> bool
    ensures { result ≡ width_fits c }
{
    cap::in_widths(c.perms, c.otype)
}

pub fn widths_fit(caps: [Cap; 32]) -> bool
    ensures { result ≡ widths_fit caps }
{
    caps.iter().all(|c| width_fits(*c))
}

fn jump_fits(pending: Option<Cap>) -> bool
    ensures { result ≡ jump_fits pending }
{
    pending.is_none_or(accept::top_fits)
}

fn jump_width(pending: Option<Cap>) -> bool
    ensures { result ≡ jump_width pending }
{
    pending.is_none_or(width_fits)
}

// The verdict on the registers' capabilities, PCC, the pending jump, general register 0 and the memories.
#[tactic(auto, using(std::proofs::lemmas::Bool::Decides::nat_tests), unfolding(manual::specs::Accept::verdict_of))]
pub fn accept(m: &Machine, flash: usize, ram: &[u8], tags: &[u8]) -> Result<(), Refusal>
    ensures { result ≡ verdict_of m.now.caps m.now.pcc m.now.pending (get_or m.now.general 0 0) flash ram.now tags.now }
{
    if !accept::sizes_fit(flash, ram.len(), tags.len()) {
        return Err(Refusal::Sizes);
    }
    if !tag_bytes_fit(tags) {
        return Err(Refusal::TagByte);
    }
    let tops = caps_fit(m.caps) && accept::top_fits(m.pcc) && jump_fits(m.pending);
    if !(tops && lines_fit(ram, tags)) {
        return Err(Refusal::Top);
    }
    let widths = widths_fit(m.caps) && width_fits(m.pcc) && jump_width(m.pending);
    if !(widths && m.general[0] == 0) {
        return Err(Refusal::Width);
    }
    Ok(())
}
