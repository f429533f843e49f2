// The records of a start book entered into a machine and its memories, one after the other (01, "The start book").
#![tactic(auto)]

ghost use Rattle.std.specs.Prelude.{◌≡◌, ◌≤◌, length};
ghost use Rattle.pages.specs.Entering.{zero_machine, with_capability, with_general, machine_with, ram_with, tags_with, enter_book, bare, RegisterIsThere, LineIsThere};

use manual::{Cap, LINE, Machine};
use mem::RAM_BASE;
use pages::{Entry, PCC, Record};

// The machine of which no register is named.
pub fn zero_machine() -> Machine
    ensures { result ≡ zero_machine }
{
    let c = narrow::no_cap();
    Machine {
        general: [0; 32],
        caps: [c; 32],
        pcc: c,
        pending: None,
        cause: 0,
    }
}

// Kind 1: a capability register, or PCC.
#[tactic(auto, using(std::proofs::lemmas::Bool::Decides::nat_tests))]
fn with_capability(mut m: Machine, number: u8, c: Cap) -> Machine
    requires { number ≤ 32 }
    ensures { result ≡ with_capability m number c }
{
    if number == PCC {
        m.pcc = c;
    } else {
        m.caps[usize::from(number)] = c;
    }
    m
}

// Kind 2: a general register.
fn with_general(mut m: Machine, number: u8, value: u64) -> Machine
    requires { number ≤ 31 }
    ensures { result ≡ with_general m number value }
{
    m.general[usize::from(number)] = value;
    m
}

// The registers with what a record says.
#[tactic(auto, unfolding(pages::specs::Entering::machine_with))]
fn with_entry(m: Machine, entry: Entry) -> Machine
    requires { RegisterIsThere entry }
    ensures { result ≡ machine_with entry m }
{
    match entry {
        Entry::Capability(number, c) => with_capability(m, number, c),
        Entry::General(number, value) => with_general(m, number, value),
        Entry::Line(_, _) => m,
    }
}

// Kind 3: the record's last 32 bytes over the line that it names, and that line's tag.
#[tactic(auto, unfolding(pages::specs::Entering::ram_with, pages::specs::Entering::tags_with))]
fn put_entry(book: &[u8], end: usize, entry: Entry, ram: &mut [u8], tags: &mut [u8])
    requires { LineIsThere book.now end entry (length ram.old) }
    ensures ram_after { ram.new ≡ ram_with book.now end entry ram.old }
    ensures tags_after { tags.new ≡ tags_with entry tags.old }
{
    if let Entry::Line(address, tag) = entry {
        let at = (address - RAM_BASE) as usize;
        ram[at..at + LINE].copy_from_slice(&book[end - LINE..end]);
        tags::with_tag(tags, at / LINE, tag);
    }
}

// Every record of a book in turn, up to its end or its first refusal, over an all-zero machine and the memories as they are.
pub fn enter_all(book: &[u8], ram: &mut [u8], tags: &mut [u8]) -> Machine
    ensures value { result ≡ (enter_book book.now (bare ram.old tags.old)).machine }
    ensures ram_after { ram.new ≡ (enter_book book.now (bare ram.old tags.old)).ram }
    ensures tags_after { tags.new ≡ (enter_book book.now (bare ram.old tags.old)).tags }
{
    let size = ram.len();
    let mut machine = zero_machine();
    let mut at = 1;
    let mut before = book::FIRST;
    while let Ok(Some(Record { end, entry })) = book::step_at(book, size, at, before) {
        machine = with_entry(machine, entry);
        put_entry(book, end, entry, ram, tags);
        at = end;
        before = book::rank_of(entry);
    }
    machine
}
