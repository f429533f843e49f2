// The machine that stands in a case of a table, its registers one by one: the programs' input and no part of the model.
#![tactic(auto)]

ghost use Rattle.std.specs.Prelude.{◌≡◌};
ghost use Rattle.tables.specs.Tables.{general_in, with_value, cap_count, cap_in, with_named, with_cap, machine_in, machine_end};

use manual::{Address, Cap, Machine, Offset};

// The numbers that a case's bytes give to PCC and to the pending jump.
const PCC: u8 = 32;

const PENDING: u8 = 33;

// Where the count of capabilities stands, of the machine at `start`.
fn cap_count(body: &[u8], start: usize) -> usize
    ensures { result ≡ cap_count body.now start }
{
    let count = tables::after(start, 2);
    tables::after(
        tables::after(count, 1),
        9 * usize::from(tables::byte(body, count)),
    )
}

// Writes the value that stands at `at` to the general register that its number names. A test, as `get_mut` does not say
// what the whole becomes.
#[tactic(auto, using(tables::proofs::Laws::value_set, tables::proofs::Laws::value_none))]
fn put_value(general: &mut [u64; 32], body: &[u8], at: usize)
    ensures { general.new ≡ with_value body.now at general.old }
{
    let register = usize::from(tables::byte(body, at));
    if register < general.len() {
        general[register] = tables::number(body, tables::after(at, 1), 8);
    }
}

// The general registers of the machine that stands at `start`. No chunks, here and below: entries may run past the bytes.
fn general_in(body: &[u8], start: usize) -> [u64; 32]
    ensures { result ≡ general_in body.now start }
{
    let mut general: [u64; 32] = [0; 32];
    let count = tables::after(start, 2);
    let mut at = tables::after(count, 1);
    for _ in 0..tables::byte(body, count) {
        put_value(&mut general, body, at);
        at = tables::after(at, 9);
    }
    general
}

// The capability of these bytes, as a case has it.
#[tactic(auto, unfolding(tables::specs::Tables::cap_in))]
fn cap_in(fields: &[u8]) -> Cap
    ensures { result ≡ cap_in fields.now }
{
    Cap {
        tag: tables::byte(fields, 0) == 1,
        sealed: tables::byte(fields, 1) == 1,
        spare: tables::byte(fields, 2),
        otype: tables::number_4(fields, 3),
        perms: tables::number_4(fields, 7),
        base: Address(tables::number(fields, 11, 8)),
        length: tables::number(fields, 19, 8),
        offset: Offset(tables::number(fields, 27, 8)),
    }
}

// The machine with this capability in the place that its number names.
#[tactic(auto, unfolding(tables::specs::Tables::with_named))]
fn with_named(mut m: Machine, number: u8, c: Cap) -> Machine
    ensures { result ≡ with_named number c m }
{
    match number {
        0..32 => m.caps[usize::from(number)] = c,
        PCC => m.pcc = c,
        PENDING => m.pending = Some(c),
        _ => {}
    }
    m
}

// The machine with the capability that stands at `at`.
#[tactic(auto, unfolding(tables::specs::Tables::with_cap))]
fn with_cap(m: Machine, body: &[u8], at: usize) -> Machine
    ensures { result ≡ with_cap body.now at m }
{
    let fields = tables::part(body, tables::after(at, 1), 35);
    with_named(m, tables::byte(body, at), cap_in(fields))
}

// The machine that stands at `start`.
pub fn machine_in(body: &[u8], start: usize) -> Machine
    ensures { result ≡ machine_in body.now start }
{
    let none = narrow::no_cap();
    let general = general_in(body, start);
    let mut m = Machine {
        general,
        caps: [none; 32],
        pcc: none,
        pending: None,
        cause: (tables::number(body, start, 2) % 0x1_0000) as u16,
    };
    let count = cap_count(body, start);
    let mut at = tables::after(count, 1);
    for _ in 0..tables::byte(body, count) {
        m = with_cap(m, body, at);
        at = tables::after(at, 36);
    }
    m
}

// Where the machine that stands at `start` ends.
pub fn machine_end(body: &[u8], start: usize) -> usize
    ensures { result ≡ machine_end body.now start }
{
    let at = cap_count(body, start);
    tables::after(
        tables::after(at, 1),
        36 * usize::from(tables::byte(body, at)),
    )
}
