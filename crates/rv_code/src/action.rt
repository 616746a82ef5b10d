// Instructions by their effect on a machine.
ghost use Rattle.std.specs.Prelude.{◌≡◌, ◌<◌, ◌^◌};
ghost use Rattle.rv_code.specs.isa.Action.{action_of};
ghost use Rattle.rv_code.specs.isa.Op.{holds};
ghost use Rattle.rv_code.specs.isa.Extension.{bytes_of, extended};

use crate::inst::Inst;
use crate::op::Op;

/// The source of an operand.
#[derive(Clone, Copy)]
pub enum Operand {
    /// The value of a register.
    Register(u8),
    /// An immediate, sign-extended to 64 bits.
    Immediate(i64),
}

/// The test of a conditional branch. BNE, BGE and BGEU use the tests of BEQ, BLT and BLTU with the opposite result. ISA
/// manual, section 2.5.
#[derive(Clone, Copy)]
pub enum Test {
    Equal,
    LessSigned,
    LessUnsigned,
}

impl Test {
    /// Whether the test holds for two 64-bit numbers.
    pub fn holds(self, left: u64, right: u64) -> bool
        ensures { result ≡ holds self left right }
    {
        match self {
            Test::Equal => left == right,
            Test::LessSigned => left.cast_signed() < right.cast_signed(),
            Test::LessUnsigned => left < right,
        }
    }
}

/// How a loaded number fills a register: its number of bits, and sign extension or zero extension. ISA manual, sections
/// 2.6 and 4.3.
#[derive(Clone, Copy)]
pub enum Extension {
    Signed8,
    Signed16,
    Signed32,
    Whole64,
    Zero8,
    Zero16,
    Zero32,
}

impl Extension {
    /// The number of bytes loaded: 1, 2, 4 or 8.
    pub fn bytes(self) -> u8
        ensures { result ≡ bytes_of self }
    {
        match self {
            Extension::Signed8 | Extension::Zero8 => 1,
            Extension::Signed16 | Extension::Zero16 => 2,
            Extension::Signed32 | Extension::Zero32 => 4,
            Extension::Whole64 => 8,
        }
    }

    /// The loaded number, extended to 64 bits.
    pub fn extend(self, number: u64) -> u64
        requires { number < 256 ^ bytes_of self }
        ensures { result ≡ extended self number }
    {
        match self {
            Extension::Signed8 => i64::from((number as u8).cast_signed()).cast_unsigned(),
            Extension::Signed16 => i64::from((number as u16).cast_signed()).cast_unsigned(),
            Extension::Signed32 => i64::from((number as u32).cast_signed()).cast_unsigned(),
            Extension::Whole64 | Extension::Zero8 | Extension::Zero16 | Extension::Zero32 => number,
        }
    }
}

/// The effect of an instruction. Both machines execute these eleven cases.
#[derive(Clone, Copy)]
pub enum Action {
    /// Writes the result of the operation.
    Compute {
        op: Op,
        rd: u8,
        left: Operand,
        right: Operand,
    },
    /// Goes to pc + imm if the test holds or, if `wanted` is false, if it doesn't hold.
    Branch {
        test: Test,
        wanted: bool,
        rs1: u8,
        rs2: u8,
        imm: i64,
    },
    /// JAL: goes to pc + imm and saves the address after the instruction.
    Jump {
        rd: u8,
        imm: i64,
    },
    /// JALR: goes to rs1 + imm with bit 0 cleared and saves the address after the instruction.
    JumpTo {
        rd: u8,
        rs1: u8,
        imm: i64,
    },
    /// LUI: writes the immediate times 4096.
    Upper {
        rd: u8,
        imm: i64,
    },
    /// AUIPC: writes pc plus the immediate times 4096.
    UpperPc {
        rd: u8,
        imm: i64,
    },
    /// Loads a number from rs1 + imm.
    Load {
        extension: Extension,
        rd: u8,
        rs1: u8,
        imm: i64,
    },
    /// Stores the low `bytes` bytes of rs2 at rs1 + imm.
    Store {
        bytes: u8,
        rs1: u8,
        rs2: u8,
        imm: i64,
    },
    /// FENCE: no effect on a machine with one thread.
    Fence,
    /// ECALL: a system call.
    SystemCall,
    /// EBREAK.
    Breakpoint,
}

impl Inst {
    /// The effect of the instruction.
    pub fn action(&self) -> Action
        ensures { result ≡ action_of self.now }
    {
        match *self {
            Inst::Lui { rd, imm } => Action::Upper { rd, imm },
            Inst::Auipc { rd, imm } => Action::UpperPc { rd, imm },
            Inst::Jal { rd, imm } => Action::Jump { rd, imm },
            Inst::Jalr { rd, rs1, imm } => Action::JumpTo { rd, rs1, imm },
            Inst::Beq { rs1, rs2, imm } => branch(Test::Equal, true, rs1, rs2, imm),
            Inst::Bne { rs1, rs2, imm } => branch(Test::Equal, false, rs1, rs2, imm),
            Inst::Blt { rs1, rs2, imm } => branch(Test::LessSigned, true, rs1, rs2, imm),
            Inst::Bge { rs1, rs2, imm } => branch(Test::LessSigned, false, rs1, rs2, imm),
            Inst::Bltu { rs1, rs2, imm } => branch(Test::LessUnsigned, true, rs1, rs2, imm),
            Inst::Bgeu { rs1, rs2, imm } => branch(Test::LessUnsigned, false, rs1, rs2, imm),
            Inst::Lb { rd, rs1, imm } => load(Extension::Signed8, rd, rs1, imm),
            Inst::Lh { rd, rs1, imm } => load(Extension::Signed16, rd, rs1, imm),
            Inst::Lw { rd, rs1, imm } => load(Extension::Signed32, rd, rs1, imm),
            Inst::Ld { rd, rs1, imm } => load(Extension::Whole64, rd, rs1, imm),
            Inst::Lbu { rd, rs1, imm } => load(Extension::Zero8, rd, rs1, imm),
            Inst::Lhu { rd, rs1, imm } => load(Extension::Zero16, rd, rs1, imm),
            Inst::Lwu { rd, rs1, imm } => load(Extension::Zero32, rd, rs1, imm),
            Inst::Sb { rs1, rs2, imm } => store(1, rs1, rs2, imm),
            Inst::Sh { rs1, rs2, imm } => store(2, rs1, rs2, imm),
            Inst::Sw { rs1, rs2, imm } => store(4, rs1, rs2, imm),
            Inst::Sd { rs1, rs2, imm } => store(8, rs1, rs2, imm),
            Inst::Addi { rd, rs1, imm } => on_immediate(Op::Add, rd, rs1, imm),
            Inst::Slti { rd, rs1, imm } => on_immediate(Op::Slt, rd, rs1, imm),
            Inst::Sltiu { rd, rs1, imm } => on_immediate(Op::Sltu, rd, rs1, imm),
            Inst::Xori { rd, rs1, imm } => on_immediate(Op::Xor, rd, rs1, imm),
            Inst::Ori { rd, rs1, imm } => on_immediate(Op::Or, rd, rs1, imm),
            Inst::Andi { rd, rs1, imm } => on_immediate(Op::And, rd, rs1, imm),
            Inst::Slli { rd, rs1, imm } => on_immediate(Op::Sll, rd, rs1, imm),
            Inst::Srli { rd, rs1, imm } => on_immediate(Op::Srl, rd, rs1, imm),
            Inst::Srai { rd, rs1, imm } => on_immediate(Op::Sra, rd, rs1, imm),
            Inst::Addiw { rd, rs1, imm } => on_immediate(Op::Addw, rd, rs1, imm),
            Inst::Slliw { rd, rs1, imm } => on_immediate(Op::Sllw, rd, rs1, imm),
            Inst::Srliw { rd, rs1, imm } => on_immediate(Op::Srlw, rd, rs1, imm),
            Inst::Sraiw { rd, rs1, imm } => on_immediate(Op::Sraw, rd, rs1, imm),
            Inst::Add { rd, rs1, rs2 } => on_registers(Op::Add, rd, rs1, rs2),
            Inst::Sub { rd, rs1, rs2 } => on_registers(Op::Sub, rd, rs1, rs2),
            Inst::Sll { rd, rs1, rs2 } => on_registers(Op::Sll, rd, rs1, rs2),
            Inst::Slt { rd, rs1, rs2 } => on_registers(Op::Slt, rd, rs1, rs2),
            Inst::Sltu { rd, rs1, rs2 } => on_registers(Op::Sltu, rd, rs1, rs2),
            Inst::Xor { rd, rs1, rs2 } => on_registers(Op::Xor, rd, rs1, rs2),
            Inst::Srl { rd, rs1, rs2 } => on_registers(Op::Srl, rd, rs1, rs2),
            Inst::Sra { rd, rs1, rs2 } => on_registers(Op::Sra, rd, rs1, rs2),
            Inst::Or { rd, rs1, rs2 } => on_registers(Op::Or, rd, rs1, rs2),
            Inst::And { rd, rs1, rs2 } => on_registers(Op::And, rd, rs1, rs2),
            Inst::Mul { rd, rs1, rs2 } => on_registers(Op::Mul, rd, rs1, rs2),
            Inst::Mulh { rd, rs1, rs2 } => on_registers(Op::Mulh, rd, rs1, rs2),
            Inst::Mulhsu { rd, rs1, rs2 } => on_registers(Op::Mulhsu, rd, rs1, rs2),
            Inst::Mulhu { rd, rs1, rs2 } => on_registers(Op::Mulhu, rd, rs1, rs2),
            Inst::Div { rd, rs1, rs2 } => on_registers(Op::Div, rd, rs1, rs2),
            Inst::Divu { rd, rs1, rs2 } => on_registers(Op::Divu, rd, rs1, rs2),
            Inst::Rem { rd, rs1, rs2 } => on_registers(Op::Rem, rd, rs1, rs2),
            Inst::Remu { rd, rs1, rs2 } => on_registers(Op::Remu, rd, rs1, rs2),
            Inst::Addw { rd, rs1, rs2 } => on_registers(Op::Addw, rd, rs1, rs2),
            Inst::Subw { rd, rs1, rs2 } => on_registers(Op::Subw, rd, rs1, rs2),
            Inst::Sllw { rd, rs1, rs2 } => on_registers(Op::Sllw, rd, rs1, rs2),
            Inst::Srlw { rd, rs1, rs2 } => on_registers(Op::Srlw, rd, rs1, rs2),
            Inst::Sraw { rd, rs1, rs2 } => on_registers(Op::Sraw, rd, rs1, rs2),
            Inst::Mulw { rd, rs1, rs2 } => on_registers(Op::Mulw, rd, rs1, rs2),
            Inst::Divw { rd, rs1, rs2 } => on_registers(Op::Divw, rd, rs1, rs2),
            Inst::Divuw { rd, rs1, rs2 } => on_registers(Op::Divuw, rd, rs1, rs2),
            Inst::Remw { rd, rs1, rs2 } => on_registers(Op::Remw, rd, rs1, rs2),
            Inst::Remuw { rd, rs1, rs2 } => on_registers(Op::Remuw, rd, rs1, rs2),
            Inst::Fence { .. } => Action::Fence,
            Inst::Ecall => Action::SystemCall,
            Inst::Ebreak => Action::Breakpoint,
        }
    }
}

fn branch(test: Test, wanted: bool, rs1: u8, rs2: u8, imm: i64) -> Action
    ensures { result ≡ Action.Branch test wanted rs1 rs2 imm }
{
    Action::Branch {
        test,
        wanted,
        rs1,
        rs2,
        imm,
    }
}

fn load(extension: Extension, rd: u8, rs1: u8, imm: i64) -> Action
    ensures { result ≡ Action.Load extension rd rs1 imm }
{
    Action::Load {
        extension,
        rd,
        rs1,
        imm,
    }
}

fn store(bytes: u8, rs1: u8, rs2: u8, imm: i64) -> Action
    ensures { result ≡ Action.Store bytes rs1 rs2 imm }
{
    Action::Store {
        bytes,
        rs1,
        rs2,
        imm,
    }
}

// An operation on a register and an immediate.
fn on_immediate(op: Op, rd: u8, rs1: u8, imm: i64) -> Action
    ensures { result ≡ Action.Compute op rd (Operand.Register rs1) (Operand.Immediate imm) }
{
    Action::Compute {
        op,
        rd,
        left: Operand::Register(rs1),
        right: Operand::Immediate(imm),
    }
}

// An operation on two registers.
fn on_registers(op: Op, rd: u8, rs1: u8, rs2: u8) -> Action
    ensures { result ≡ Action.Compute op rd (Operand.Register rs1) (Operand.Register rs2) }
{
    Action::Compute {
        op,
        rd,
        left: Operand::Register(rs1),
        right: Operand::Register(rs2),
    }
}
