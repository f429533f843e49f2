// A capability record of a start book: its fields, and why they are refused.
#![tactic(auto)]

ghost use Rattle.std.specs.Prelude.{◌≡◌, ◌&&◌, length, leb, ltb};
ghost use Rattle.pages.specs.Fields.{cap_of, capability_of};

use manual::{Address, Cap, Offset, Refusal};
use pages::{Entry, PCC};

// The register's number, its two flags, and the top byte of its permissions.
fn are_fields(number: u8, tag: u8, sealed: u8, top: u8) -> bool
    ensures { result ≡ (leb number 32 && (leb tag 1 && (leb sealed 1 && ltb top 128))) }
{
    number <= PCC && tag <= 1 && sealed <= 1 && top < 128
}

// The capability of a body of 36 bytes.
#[tactic(auto, unfolding(pages::specs::Fields::cap_of))]
fn cap_in(body: &[u8]) -> Cap
    requires { length body.now ≡ 36 }
    ensures { result ≡ cap_of body.now }
{
    let otype = num::load_be(&body[5..8]);
    let perms = num::load_be(&body[8..12]);
    let base = num::load_be(&body[12..20]);
    let length = num::load_be(&body[20..28]);
    let offset = num::load_be(&body[28..36]);
    let tag = body[2];
    let sealed = body[3];
    Cap {
        base: Address(base),
        length,
        offset: Offset(offset),
        perms: (perms % 0x8000_0000) as u32,
        otype: (otype % 0x100_0000) as u32,
        spare: body[4],
        tag: tag == 1,
        sealed: sealed == 1,
    }
}

// Kind 1: a capability register, or PCC.
#[tactic(auto, using(std::proofs::lemmas::Bool::Decides::nat_tests), unfolding(pages::specs::Fields::capability_of))]
pub fn capability_in(body: &[u8]) -> Result<Entry, Refusal>
    ensures { result ≡ capability_of body.now }
{
    if body.len() != 36 {
        return Err(Refusal::Cut);
    }
    let number = body[1];
    if !are_fields(number, body[2], body[3], body[8]) {
        return Err(Refusal::Field);
    }
    let c = cap_in(body);
    if !accept::top_fits(c) {
        return Err(Refusal::Top);
    }
    Ok(Entry::Capability(number, c))
}
