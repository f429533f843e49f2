// What a record of a start book says, or why it is refused.
#![tactic(auto)]

ghost use Rattle.std.specs.Prelude.{◌≡◌, ◌&&◌, leb};
ghost use Rattle.pages.specs.Entry.{general_of, is_line, line_of, entry_of};

use manual::{LINE, Refusal};
use mem::RAM_BASE;
use pages::Entry;

fn is_general(number: u8) -> bool
    ensures { result ≡ (leb 1 number && leb number 31) }
{
    1 <= number && number <= 31
}

// Kind 2: a general register.
#[tactic(auto, using(std::proofs::lemmas::Bool::Decides::nat_tests), unfolding(pages::specs::Entry::general_of))]
fn general_in(body: &[u8]) -> Result<Entry, Refusal>
    ensures { result ≡ general_of body.now }
{
    if body.len() != 10 {
        return Err(Refusal::Cut);
    }
    let number = body[1];
    if !is_general(number) {
        return Err(Refusal::Field);
    }
    Ok(Entry::General(number, num::load_be(&body[2..10])))
}

// Whether an address is that of a line of a RAM of so many bytes.
#[tactic(auto, using(std::proofs::lemmas::Bool::Decides::nat_tests), unfolding(pages::specs::Entry::is_line))]
fn is_line(address: u64, ram: usize) -> bool
    ensures { result ≡ is_line address ram }
{
    address >= RAM_BASE
        && address % 32 == 0
        && ram >= LINE
        && (address - RAM_BASE) as usize <= ram - LINE
}

// Kind 3: a line of the RAM, and its tag.
#[tactic(auto, using(std::proofs::lemmas::Bool::Decides::nat_tests), unfolding(pages::specs::Entry::line_of))]
fn line_in(body: &[u8], ram: usize) -> Result<Entry, Refusal>
    ensures { result ≡ line_of body.now ram }
{
    if body.len() != 42 {
        return Err(Refusal::Cut);
    }
    let address = num::load_be(&body[1..9]);
    let tag = body[9];
    if !(tag <= 1 && is_line(address, ram)) {
        return Err(Refusal::Field);
    }
    if !accept::loaded_fits(line::cap_in(&body[10..42], tag == 1)) {
        return Err(Refusal::Top);
    }
    Ok(Entry::Line(address, tag == 1))
}

// What a body says, for a RAM of so many bytes: an unknown kind comes before a wrong length.
#[tactic(auto, using(std::proofs::lemmas::Bool::Decides::nat_tests), unfolding(pages::specs::Entry::entry_of))]
pub fn entry_in(body: &[u8], ram: usize) -> Result<Entry, Refusal>
    ensures { result ≡ entry_of body.now ram }
{
    if body.len() == 0 {
        return Err(Refusal::Cut);
    }
    match body[0] {
        1 => fields::capability_in(body),
        2 => general_in(body),
        3 => line_in(body, ram),
        _ => Err(Refusal::Kind),
    }
}
