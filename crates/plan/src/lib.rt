// What a word's instruction does on the registers that the word names: every check, then one effect.
#![tactic(auto)]

ghost use Rattle.std.specs.Prelude.{◌≡◌, Ok};
ghost use Rattle.manual.specs.Checks.{settle};
ghost use Rattle.manual.specs.Plan.{plan_of};

use manual::{Effect, Fault, Instr, Operands};

fn sets(rd: u8, value: u64) -> Result<Effect, Fault>
    ensures { result ≡ Ok (Effect.General rd value) }
{
    Ok(Effect::General(rd, value))
}

#[tactic(auto, unfolding(manual::specs::Plan::plan_of, manual::specs::Checks::settle))]
pub fn plan(o: Operands, i: Instr) -> Result<Effect, Fault>
    ensures { result ≡ settle (plan_of o i) }
{
    match i {
        Instr::Reserved => Err(Fault::Reserved),
        Instr::Nop => Ok(Effect::Nothing),
        Instr::Break => Err(Fault::Break),
        Instr::Compute(op) => sets(o.n15, compute::compute(op, o.g25, o.g20)),
        Instr::ComputeImmediate(op, x) => sets(o.n20, compute::compute(op, o.g25, x)),
        Instr::Lui(x) => sets(o.n20, x),
        Instr::Branch(equal, x) => branch::plan_branch(equal, x, o.pcc, o.g25, o.g20),
        Instr::Load(size, signed, x) => transfer::plan_load(
            size, signed, x, o.pcc, o.n25, o.c20, o.g15,
        ),
        Instr::Store(size, x) => transfer::plan_store(size, x, o.pcc, o.g25, o.c20, o.g15),
        Instr::LoadByC0(size, x) => transfer::plan_load(size, false, x, o.pcc, o.n20, o.c0, o.g25),
        Instr::StoreByC0(size, x) => transfer::plan_store(size, x, o.pcc, o.g20, o.c0, o.g25),
        Instr::LoadCapability(x) => captransfer::clc(x, o.pcc, o.n25, o.c20, o.g15),
        Instr::StoreCapability(x) => captransfer::csc(x, o.pcc, o.c25, o.c20, o.g15),
        Instr::Get(field) => inspect::plan_get(field, o.pcc, o.n20, o.c15),
        Instr::GetPcc => derive::get_pcc(o.pcc, o.n20),
        Instr::GetCause => inspect::get_cause(o.pcc, o.cause, o.n20),
        Instr::SetCause => inspect::set_cause(o.pcc, o.g20),
        Instr::AndPerm => derive::and_perm(o.pcc, o.n20, o.c15, o.g10),
        Instr::ClearTag => derive::clear_tag(o.pcc, o.n20, o.c15),
        Instr::IncBase => derive::inc_base(o.pcc, o.n20, o.c15, o.g10),
        Instr::SetLength => derive::set_len(o.pcc, o.n20, o.c15, o.g10),
        Instr::SetOffset => derive::set_offset(o.pcc, o.n20, o.c15, o.g10),
        Instr::IncOffset => derive::inc_offset(o.pcc, o.n20, o.c15, o.g10),
        Instr::FromPtr => derive::from_ptr(o.pcc, o.n20, o.c15, o.g10),
        Instr::ToPtr => inspect::to_ptr(o.pcc, o.n20, o.c15, o.c10),
        Instr::Seal => seal::seal(o.pcc, o.n20, o.c15, o.c10),
        Instr::Unseal => seal::unseal(o.pcc, o.n20, o.c15, o.c10),
        Instr::CheckPerm => inspect::check_perm(o.pcc, o.c20, o.g15),
        Instr::CheckType => inspect::check_type(o.pcc, o.c20, o.c15),
        Instr::Jr => jump::cjr(o.pcc, o.c20),
        Instr::Jalr => jump::cjalr(o.pcc, o.n20, o.c15),
        Instr::BranchTag(set, x) => branch::branch_tag(set, x, o.pcc, o.c20),
        Instr::Call => jump::ccall(o.n20),
        Instr::Return => jump::creturn(),
        Instr::PtrCompare(kind) => compare::ptr_compare(kind, o.pcc, o.n20, o.c15, o.c10),
    }
}
