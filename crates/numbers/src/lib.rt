// Which variant an instruction, an operation, a field or a comparison is, as the program `words` prints it: no part of the model.
#![tactic(auto)]

ghost use Rattle.std.specs.Prelude.{◌≡◌};
ghost use denote.Enum.Declared.{tag_of as variant_of};
ghost use Rattle.manual.specs.contracts.Alu.{the_type as operations};
ghost use Rattle.manual.specs.contracts.Compare.{the_type as kinds};
ghost use Rattle.manual.specs.contracts.Field.{the_type as fields};
ghost use Rattle.manual.specs.contracts.Instr.{the_type as instructions};

use manual::{Alu, Compare, Field, Instr};

// Which variant of Instr it is, from 0; a match, since `as` takes only an enum whose variants have no fields.
pub fn number(i: Instr) -> u64
    ensures { result ≡ variant_of instructions i }
{
    match i {
        Instr::Reserved => 0,
        Instr::Nop => 1,
        Instr::Break => 2,
        Instr::Compute(_) => 3,
        Instr::ComputeImmediate(_, _) => 4,
        Instr::Lui(_) => 5,
        Instr::Branch(_, _) => 6,
        Instr::Load(_, _, _) => 7,
        Instr::Store(_, _) => 8,
        Instr::LoadByC0(_, _) => 9,
        Instr::StoreByC0(_, _) => 10,
        Instr::LoadCapability(_) => 11,
        Instr::StoreCapability(_) => 12,
        Instr::Get(_) => 13,
        Instr::GetPcc => 14,
        Instr::GetCause => 15,
        Instr::SetCause => 16,
        Instr::AndPerm => 17,
        Instr::ClearTag => 18,
        Instr::IncBase => 19,
        Instr::SetLength => 20,
        Instr::SetOffset => 21,
        Instr::IncOffset => 22,
        Instr::FromPtr => 23,
        Instr::ToPtr => 24,
        Instr::Seal => 25,
        Instr::Unseal => 26,
        Instr::CheckPerm => 27,
        Instr::CheckType => 28,
        Instr::Jr => 29,
        Instr::Jalr => 30,
        Instr::BranchTag(_, _) => 31,
        Instr::Call => 32,
        Instr::Return => 33,
        Instr::PtrCompare(_) => 34,
    }
}

pub fn operation(a: Alu) -> u64
    ensures { result ≡ variant_of operations a }
{
    a as u64
}

pub fn field(f: Field) -> u64
    ensures { result ≡ variant_of fields f }
{
    f as u64
}

pub fn kind(k: Compare) -> u64
    ensures { result ≡ variant_of kinds k }
{
    k as u64
}
