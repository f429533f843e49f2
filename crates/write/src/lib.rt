// The writer of start books (01, "The start book").
#![tactic(auto)]

ghost use Rattle.std.specs.Prelude.{◌≡◌, true, length};
ghost use Rattle.manual.specs.Accept.{sizes_fit};
ghost use Rattle.pages.specs.Write.{rests, after_start, write_book};

use manual::{Machine, Refusal};

// Nothing is pending, and the cause is 0.
fn rests(m: &Machine) -> bool
    ensures { result ≡ rests m.now }
{
    m.pending.is_none() && m.cause == 0
}

// 35, then the book, or 36 where it does not fit.
fn write_accepted(m: Machine, ram: &[u8], tags: &[u8], out: &mut [u8]) -> Result<usize, Refusal>
    requires { sizes_fit 0 (length ram.now) (length tags.now) ≡ true }
    ensures value { result ≡ (after_start m ram.now tags.now out.old).written }
    ensures out_after { out.new ≡ (after_start m ram.now tags.now out.old).out }
{
    if !rests(&m) {
        return Err(Refusal::Waiting);
    }
    let bytes = spell::put_book(m, ram, tags, out);
    if out.len() < bytes {
        return Err(Refusal::Room);
    }
    Ok(bytes)
}

// Writes the book of a machine, its RAM and its tags: 20, 21, 22, 24, 35, 36 are tested in this order before a byte is written.
#[tactic(auto, using(manual::proofs::Accepted::sizes_fit_lem), unfolding(pages::specs::Write::write_book))]
pub fn write_book(
    machine: Machine,
    ram: &[u8],
    tags: &[u8],
    out: &mut [u8],
) -> Result<usize, Refusal>
    ensures value { result ≡ (write_book machine ram.now tags.now out.old).written }
    ensures out_after { out.new ≡ (write_book machine ram.now tags.now out.old).out }
{
    start::accept(&machine, 0, ram, tags)?;
    write_accepted(machine, ram, tags, out)
}
