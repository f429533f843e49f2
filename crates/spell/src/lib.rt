// The book of a machine, spelled record by record (01, "The start book").
#![tactic(auto)]

ghost use Rattle.std.specs.Prelude.{◌≡◌, true, ◌*◌, ◌^◌, ◌≤◌, length};
ghost use Rattle.manual.specs.Store.{put};
ghost use Rattle.manual.specs.Accept.{sizes_fit};
ghost use Rattle.pages.specs.Runs.{Runs};
ghost use Rattle.pages.specs.Spell.{cap_pieces, general_pieces, line_pieces, book_of, legal_book};

use manual::{Cap, LINE, Machine};
use mem::RAM_BASE;
use naming::{General, Line, Recorded, Register};
use pages::PCC;

// The capability registers that are not zero.
// As in `giving`, with `name` for `put`: a closure each, and nothing else is alike.
fn spell_caps(caps: &[Cap; 32], out: &mut [u8], at: usize) -> usize
    requires { at ≤ 2 ^ 16 }
    ensures { Runs out.old at (cap_pieces caps.now) out.new result }
{
    let name = |i: usize, out: &mut [u8], end: usize| {
        Register {
            number: i as u8,
            cap: &caps[i],
        }
        .name(out, end)
    };
    naming::put_each(0..32, name, out, at)
}

// General registers 1 to 31 that are not zero.
fn spell_generals(general: &[u64; 32], out: &mut [u8], at: usize) -> usize
    requires { at ≤ 2 ^ 16 }
    ensures { Runs out.old at (general_pieces general.now) out.new result }
{
    let name = |i: usize, out: &mut [u8], end: usize| {
        General {
            number: i as u8,
            value: general[i],
        }
        .name(out, end)
    };
    naming::put_each(1..32, name, out, at)
}

// The lines that are tagged or not all zero.
fn spell_lines(ram: &[u8], tags: &[u8], out: &mut [u8], at: usize) -> usize
    requires { (length tags.now * 32 ≤ length ram.now) × (length tags.now ≤ 2048) × (at ≤ 2 ^ 16) }
    ensures { Runs out.old at (line_pieces ram.now tags.now) out.new result }
{
    let name = |i: usize, out: &mut [u8], end: usize| {
        let start = i * LINE;
        Line {
            address: RAM_BASE + start as u64,
            tag: tags::tag_of(tags, i),
            bytes: &ram[start..start + LINE],
        }
        .name(out, end)
    };
    naming::put_each(0..tags.len(), name, out, at)
}

// The whole book, from byte 0 on; its length.
fn spell_all(m: Machine, ram: &[u8], tags: &[u8], out: &mut [u8]) -> usize
    requires { sizes_fit 0 (length ram.now) (length tags.now) ≡ true }
    ensures { Runs out.old 0 (book_of m ram.now tags.now) out.new result }
{
    store::put_be(out, 0, 1, 1);
    let named = spell_caps(&m.caps, out, 1);
    let pcc = Register {
        number: PCC,
        cap: &m.pcc,
    };
    let all = named + pcc.name(out, named);
    let registers = spell_generals(&m.general, out, all);
    spell_lines(ram, tags, out, registers)
}

// The book from byte 0 on, nothing where it does not fit; its length. A buffer of no byte measures it first.
pub fn put_book(m: Machine, ram: &[u8], tags: &[u8], out: &mut [u8]) -> usize
    ensures value { result ≡ length (legal_book m ram.now tags.now) }
    ensures out_after { out.new ≡ put out.old 0 (legal_book m ram.now tags.now) }
{
    if !accept::sizes_fit(0, ram.len(), tags.len()) {
        return 0;
    }
    let bytes = spell_all(m, ram, tags, &mut out[..0]);
    if bytes <= out.len() {
        spell_all(m, ram, tags, out);
    }
    bytes
}
