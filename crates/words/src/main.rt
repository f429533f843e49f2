// Says of each word of a table which instruction it is. The table is standard input, four bytes a word and at most
// 65,536 in all; a word's line is six numbers, WORD NUMBER SUB FLAG IMMEDIATE JUMP, 0 for what an instruction lacks.
#![tactic(auto)]

use manual::Instr;
use std::io;
use std::io::{BufWriter, Write};

const TABLE: usize = 65_536;

// SUB: the operation, the bytes of a load or a store of data, the field or the kind.
fn sub(i: Instr) -> u64 {
    match i {
        Instr::Compute(a) | Instr::ComputeImmediate(a, _) => numbers::operation(a),
        Instr::Load(s, _, _)
        | Instr::Store(s, _)
        | Instr::LoadByC0(s, _)
        | Instr::StoreByC0(s, _) => num::size_bytes(s) as u64,
        Instr::Get(f) => numbers::field(f),
        Instr::PtrCompare(k) => numbers::kind(k),
        _ => 0,
    }
}

// FLAG: BEQ, a load that extends the sign, or CBTS.
fn flag(i: Instr) -> bool {
    match i {
        Instr::Branch(flag, _) | Instr::Load(_, flag, _) | Instr::BranchTag(flag, _) => flag,
        _ => false,
    }
}

// IMMEDIATE: the immediate or the count, in 64 bits.
fn immediate(i: Instr) -> u64 {
    match i {
        Instr::ComputeImmediate(_, x)
        | Instr::Lui(x)
        | Instr::Branch(_, x)
        | Instr::Load(_, _, x)
        | Instr::Store(_, x)
        | Instr::LoadByC0(_, x)
        | Instr::StoreByC0(_, x)
        | Instr::LoadCapability(x)
        | Instr::StoreCapability(x)
        | Instr::BranchTag(_, x) => x,
        _ => 0,
    }
}

fn print_word<W: Write>(to: &mut W, word: u32) -> io::Result<()> {
    let i = decode::decode(word);
    let line = [
        u64::from(word),
        numbers::number(i),
        sub(i),
        u64::from(flag(i)),
        immediate(i),
        u64::from(isa::is_jump_word(word)),
    ];
    tables::print_line(to, &line)
}

fn print_words<W: Write>(to: &mut W, table: &[u8]) -> io::Result<()> {
    for word in table.chunks_exact(4) {
        print_word(to, tables::number_4(word, 0))?;
    }
    Ok(())
}

fn main(rt: HostRuntime) -> io::Result<()> {
    let mut table = [0; TABLE];
    let n = tables::read_full(&mut rt.reader(), &mut table);
    let mut to = BufWriter::new(rt.alloc(), io::writer(&rt))?;
    print_words(&mut to, &table[..n])?;
    to.flush()
}
