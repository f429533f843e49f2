// Every register of a machine as bytes, for a reader outside.
#![tactic(auto)]

ghost use Rattle.std.specs.Prelude.{◌≡◌, ◌^◌, ◌≤◌};
ghost use Rattle.manual.specs.Store.{put};
ghost use Rattle.pages.specs.Runs.{Runs};
ghost use Rattle.pages.specs.Registers.{cap_records, general_records, registers_of};

use manual::{Cap, Machine};
use naming::{General, Recorded, Register};
use pages::PCC;

// Where the last record of the registers ends.
pub const REGISTERS: usize = 1627;

// C0 to C31, one record each. As in `spell`, with `put` for `name`: a closure each, and nothing else is alike.
fn put_caps(caps: &[Cap; 32], out: &mut [u8], at: usize) -> usize
    requires { at ≤ 2 ^ 16 }
    ensures { Runs out.old at (cap_records caps.now) out.new result }
{
    let put = |i: usize, out: &mut [u8], end: usize| {
        Register {
            number: i as u8,
            cap: &caps[i],
        }
        .put(out, end)
    };
    naming::put_each(0..32, put, out, at)
}

// General registers 1 to 31, one record each.
fn put_generals(general: &[u64; 32], out: &mut [u8], at: usize) -> usize
    requires { at ≤ 2 ^ 16 }
    ensures { Runs out.old at (general_records general.now) out.new result }
{
    let put = |i: usize, out: &mut [u8], end: usize| {
        General {
            number: i as u8,
            value: general[i],
        }
        .put(out, end)
    };
    naming::put_each(1..32, put, out, at)
}

// Every register, zero or not, from byte 0 on; nothing where they do not fit.
#[tactic(auto, using(pages::proofs::Registers::registers_out))]
pub fn put_registers(m: Machine, out: &mut [u8])
    ensures { out.new ≡ put out.old 0 (registers_of m) }
{
    if out.len() < REGISTERS {
        return;
    }
    store::put_be(out, 0, 1, 1);
    let caps = put_caps(&m.caps, out, 1);
    let pcc = Register {
        number: PCC,
        cap: &m.pcc,
    };
    let all = caps + pcc.put(out, caps);
    put_generals(&m.general, out, all);
}
