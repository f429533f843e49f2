// The values that the definitions beside this file speak of: numbers, capabilities, the machine, memory, a step and what is told of a run.
#![tactic(auto)]

// Counts from a base.
#[derive(Clone, Copy, PartialEq, Eq, Default)]
pub struct Offset(pub u64);

// Counts from zero.
#[derive(Clone, Copy, PartialEq, Eq, Default)]
pub struct Address(pub u64);

// The sizes of an access: of data, and a capability's line.
#[derive(Clone, Copy)]
pub enum Size {
    One,
    Two,
    Four,
    Eight,
    Line,
}

pub const LINE: usize = 32;

// A capability: its fields by 004, and the bits that no field has.
#[derive(Clone, Copy, PartialEq, Eq, Default)]
pub struct Cap {
    pub base: Address,
    pub length: u64,
    pub offset: Offset,
    pub perms: u32,
    pub otype: u32,
    pub spare: u8,
    pub tag: bool,
    pub sealed: bool,
}

// The machine by value.
#[derive(Clone, Copy)]
pub struct Machine {
    pub general: [u64; 32],
    pub caps: [Cap; 32],
    pub pcc: Cap,
    // A jump that takes effect after the next instruction.
    pub pending: Option<Cap>,
    pub cause: u16,
}

// The operations of the MIPS arithmetic.
#[derive(Clone, Copy)]
pub enum Alu {
    Daddu,
    Dsubu,
    And,
    Or,
    Xor,
    Slt,
    Sltu,
    Dsllv,
    Dsrlv,
}

// The fields that CGetBase, CGetLen and their like read.
#[derive(Clone, Copy)]
pub enum Field {
    Base,
    Length,
    Offset,
    Perms,
    Tag,
    Sealed,
    Otype,
}

// The tests of CPtrCmp.
#[derive(Clone, Copy)]
pub enum Compare {
    Eq,
    Ne,
    Lt,
    Le,
    Ltu,
    Leu,
}

// What a word holds beside its register numbers; a signed number is in 64 bits.
#[derive(Clone, Copy)]
pub enum Instr {
    // No instruction: a kind of word with a stop of its own (4) and a number in the table of the program `words`, so no Option.
    Reserved,
    Nop,
    Break,
    // rs 25..21, rt 20..16, rd 15..11.
    Compute(Alu),
    // rs 25..21, rt 20..16; the immediate.
    ComputeImmediate(Alu, u64),
    // rt 20..16; the value.
    Lui(u64),
    // rs 25..21, rt 20..16; BEQ is true, and the count of words.
    Branch(bool, u64),
    // rd or rs 25..21, cb 20..16, rt 15..11; the size, whether to sign-extend, and the offset in bytes.
    Load(Size, bool, u64),
    Store(Size, u64),
    // The base register 25..21, rt 20..16; the size and the offset in bytes.
    LoadByC0(Size, u64),
    StoreByC0(Size, u64),
    // cd or cs 25..21, cb 20..16, rt 15..11; the offset in bytes.
    LoadCapability(u64),
    StoreCapability(u64),
    // From here on the operands are in 20..16, 15..11, 10..6.
    Get(Field),
    GetPcc,
    GetCause,
    SetCause,
    AndPerm,
    ClearTag,
    IncBase,
    SetLength,
    SetOffset,
    IncOffset,
    FromPtr,
    ToPtr,
    Seal,
    Unseal,
    CheckPerm,
    CheckType,
    Jr,
    Jalr,
    // CBTS is true, and the count of words.
    BranchTag(bool, u64),
    Call,
    Return,
    PtrCompare(Compare),
}

// Where an access lies: at this index of the flash or of the RAM, or in neither. Three places that are always told apart, so no Option of two.
#[derive(Clone, Copy)]
pub enum Place {
    Flash(usize),
    Ram(usize),
    Nowhere,
}

// Which test an access fails.
#[derive(Clone, Copy)]
pub enum Unfit {
    Length,
    Misaligned,
}

// A capability register that a word names, and what it holds.
#[derive(Clone, Copy)]
pub struct Named {
    pub cap: Cap,
    pub number: u8,
}

// Why a step stops.
#[derive(Clone, Copy)]
pub enum Fault {
    Raise(u8, u8),
    Misaligned,
    StoreMisaligned,
    Reserved,
    Nowhere,
    IntoFlash,
    Pending,
    Break,
}

// Table 3.3 of 004. Numbers and no enum: `checks::that` promises its answer for each cause, and a permission's cause is 0x10 and its number.
pub const LENGTH: u8 = 1;

pub const TAG: u8 = 2;

pub const SEAL: u8 = 3;

pub const TYPE: u8 = 4;

pub const CALL: u8 = 5;

pub const RETURN: u8 = 6;

pub const USER: u8 = 8;

// What an exception that names no register, or PCC, reports.
pub const NO_REGISTER: u8 = 255;

// The one thing that an instruction does.
#[derive(Clone, Copy)]
pub enum Effect {
    Nothing,
    General(u8, u64),
    Capability(u8, Cap),
    Cause(u16),
    Jump(Cap),
    Link(u8, Cap, Cap),
    Load(Size, bool, Address, u8),
    Store(Size, Address, u64),
    LoadCapability(Address, u8),
    StoreCapability(Address, Cap),
}

// The registers that the word's fields 25..21, 20..16, 15..11 and 10..6 name, C0, PCC and the cause.
#[derive(Clone, Copy)]
pub struct Operands {
    pub n25: u8,
    pub n20: u8,
    pub n15: u8,
    pub g25: u64,
    pub g20: u64,
    pub g15: u64,
    pub g10: u64,
    pub c25: Named,
    pub c20: Named,
    pub c15: Named,
    pub c10: Named,
    pub c0: Named,
    pub pcc: Cap,
    pub cause: u16,
}

// What a step writes; register 0 and C0 as it was stand for none, so that every step writes one of each and none asks whether.
#[derive(Clone, Copy)]
pub struct Change {
    pub rd: u8,
    pub value: u64,
    pub cd: u8,
    pub cap: Cap,
    pub cause: u16,
    pub jump: Option<Cap>,
}

// How a run ended: 01's stop or refusal, and the machine then. The stop is 01's number, since that is what is told, and what the definitions of a run answer.
#[derive(Clone, Copy)]
pub struct Outcome {
    pub stop: u8,
    pub cause: u8,
    pub register: u8,
    pub place: u64,
    pub steps: u32,
    pub machine: Machine,
}

// Why a start or a book is refused, by a run, by the reader of books or by their writer.
#[derive(Clone, Copy)]
pub enum Refusal {
    Sizes,
    TagByte,
    Top,
    Width,
    Version,
    Cut,
    Kind,
    Order,
    Field,
    Waiting,
    Room,
}

// What the bench prints: stop or refusal, cause code, register, place, steps, zeros where they do not apply.
#[derive(Clone, Copy)]
pub struct Answer {
    pub stop: u8,
    pub cause: u8,
    pub register: u8,
    pub place: u64,
    pub steps: u32,
}
