// Equality of instructions. A derived `==` has no contract for an enum of this many variants, so instructions are
// converted to a struct and compared by its fields.
ghost use Rattle.std.specs.Prelude.{◌≡◌, ◌↔◌, IsTrue};
ghost use Rattle.rv_encode.specs.internal.PartsOfInst.{parts_of};

use rv_code::Inst;

/// An instruction as its number in the order of [`Inst`], its registers and its immediate. Missing operands are 0.
#[derive(Clone, Copy, PartialEq, Eq)]
pub struct InstParts {
    pub number: u8,
    pub rd: u8,
    pub rs1: u8,
    pub rs2: u8,
    pub imm: i64,
}

fn parts_with(number: u8, rd: u8, rs1: u8, rs2: u8, imm: i64) -> InstParts
    ensures { result ≡ record { number = number; rd = rd; rs1 = rs1; rs2 = rs2; imm = imm } }
{
    InstParts {
        number,
        rd,
        rs1,
        rs2,
        imm,
    }
}

fn parts_of(inst: &Inst) -> InstParts
    ensures { result ≡ parts_of inst.now }
{
    match *inst {
        Inst::Lui { rd, imm } => parts_with(0, rd, 0, 0, imm),
        Inst::Auipc { rd, imm } => parts_with(1, rd, 0, 0, imm),
        Inst::Jal { rd, imm } => parts_with(2, rd, 0, 0, imm),
        Inst::Jalr { rd, rs1, imm } => parts_with(3, rd, rs1, 0, imm),
        Inst::Beq { rs1, rs2, imm } => parts_with(4, 0, rs1, rs2, imm),
        Inst::Bne { rs1, rs2, imm } => parts_with(5, 0, rs1, rs2, imm),
        Inst::Blt { rs1, rs2, imm } => parts_with(6, 0, rs1, rs2, imm),
        Inst::Bge { rs1, rs2, imm } => parts_with(7, 0, rs1, rs2, imm),
        Inst::Bltu { rs1, rs2, imm } => parts_with(8, 0, rs1, rs2, imm),
        Inst::Bgeu { rs1, rs2, imm } => parts_with(9, 0, rs1, rs2, imm),
        Inst::Lb { rd, rs1, imm } => parts_with(10, rd, rs1, 0, imm),
        Inst::Lh { rd, rs1, imm } => parts_with(11, rd, rs1, 0, imm),
        Inst::Lw { rd, rs1, imm } => parts_with(12, rd, rs1, 0, imm),
        Inst::Ld { rd, rs1, imm } => parts_with(13, rd, rs1, 0, imm),
        Inst::Lbu { rd, rs1, imm } => parts_with(14, rd, rs1, 0, imm),
        Inst::Lhu { rd, rs1, imm } => parts_with(15, rd, rs1, 0, imm),
        Inst::Lwu { rd, rs1, imm } => parts_with(16, rd, rs1, 0, imm),
        Inst::Sb { rs1, rs2, imm } => parts_with(17, 0, rs1, rs2, imm),
        Inst::Sh { rs1, rs2, imm } => parts_with(18, 0, rs1, rs2, imm),
        Inst::Sw { rs1, rs2, imm } => parts_with(19, 0, rs1, rs2, imm),
        Inst::Sd { rs1, rs2, imm } => parts_with(20, 0, rs1, rs2, imm),
        Inst::Addi { rd, rs1, imm } => parts_with(21, rd, rs1, 0, imm),
        Inst::Slti { rd, rs1, imm } => parts_with(22, rd, rs1, 0, imm),
        Inst::Sltiu { rd, rs1, imm } => parts_with(23, rd, rs1, 0, imm),
        Inst::Xori { rd, rs1, imm } => parts_with(24, rd, rs1, 0, imm),
        Inst::Ori { rd, rs1, imm } => parts_with(25, rd, rs1, 0, imm),
        Inst::Andi { rd, rs1, imm } => parts_with(26, rd, rs1, 0, imm),
        Inst::Slli { rd, rs1, imm } => parts_with(27, rd, rs1, 0, imm),
        Inst::Srli { rd, rs1, imm } => parts_with(28, rd, rs1, 0, imm),
        Inst::Srai { rd, rs1, imm } => parts_with(29, rd, rs1, 0, imm),
        Inst::Add { rd, rs1, rs2 } => parts_with(30, rd, rs1, rs2, 0),
        Inst::Sub { rd, rs1, rs2 } => parts_with(31, rd, rs1, rs2, 0),
        Inst::Sll { rd, rs1, rs2 } => parts_with(32, rd, rs1, rs2, 0),
        Inst::Slt { rd, rs1, rs2 } => parts_with(33, rd, rs1, rs2, 0),
        Inst::Sltu { rd, rs1, rs2 } => parts_with(34, rd, rs1, rs2, 0),
        Inst::Xor { rd, rs1, rs2 } => parts_with(35, rd, rs1, rs2, 0),
        Inst::Srl { rd, rs1, rs2 } => parts_with(36, rd, rs1, rs2, 0),
        Inst::Sra { rd, rs1, rs2 } => parts_with(37, rd, rs1, rs2, 0),
        Inst::Or { rd, rs1, rs2 } => parts_with(38, rd, rs1, rs2, 0),
        Inst::And { rd, rs1, rs2 } => parts_with(39, rd, rs1, rs2, 0),
        Inst::Mul { rd, rs1, rs2 } => parts_with(40, rd, rs1, rs2, 0),
        Inst::Mulh { rd, rs1, rs2 } => parts_with(41, rd, rs1, rs2, 0),
        Inst::Mulhsu { rd, rs1, rs2 } => parts_with(42, rd, rs1, rs2, 0),
        Inst::Mulhu { rd, rs1, rs2 } => parts_with(43, rd, rs1, rs2, 0),
        Inst::Div { rd, rs1, rs2 } => parts_with(44, rd, rs1, rs2, 0),
        Inst::Divu { rd, rs1, rs2 } => parts_with(45, rd, rs1, rs2, 0),
        Inst::Rem { rd, rs1, rs2 } => parts_with(46, rd, rs1, rs2, 0),
        Inst::Remu { rd, rs1, rs2 } => parts_with(47, rd, rs1, rs2, 0),
        Inst::Addiw { rd, rs1, imm } => parts_with(48, rd, rs1, 0, imm),
        Inst::Slliw { rd, rs1, imm } => parts_with(49, rd, rs1, 0, imm),
        Inst::Srliw { rd, rs1, imm } => parts_with(50, rd, rs1, 0, imm),
        Inst::Sraiw { rd, rs1, imm } => parts_with(51, rd, rs1, 0, imm),
        Inst::Addw { rd, rs1, rs2 } => parts_with(52, rd, rs1, rs2, 0),
        Inst::Subw { rd, rs1, rs2 } => parts_with(53, rd, rs1, rs2, 0),
        Inst::Sllw { rd, rs1, rs2 } => parts_with(54, rd, rs1, rs2, 0),
        Inst::Srlw { rd, rs1, rs2 } => parts_with(55, rd, rs1, rs2, 0),
        Inst::Sraw { rd, rs1, rs2 } => parts_with(56, rd, rs1, rs2, 0),
        Inst::Mulw { rd, rs1, rs2 } => parts_with(57, rd, rs1, rs2, 0),
        Inst::Divw { rd, rs1, rs2 } => parts_with(58, rd, rs1, rs2, 0),
        Inst::Divuw { rd, rs1, rs2 } => parts_with(59, rd, rs1, rs2, 0),
        Inst::Remw { rd, rs1, rs2 } => parts_with(60, rd, rs1, rs2, 0),
        Inst::Remuw { rd, rs1, rs2 } => parts_with(61, rd, rs1, rs2, 0),
        Inst::Fence { rd, rs1, imm } => parts_with(62, rd, rs1, 0, imm),
        Inst::Ecall => parts_with(63, 0, 0, 0, 0),
        Inst::Ebreak => parts_with(64, 0, 0, 0, 0),
    }
}

fn are_same_parts(a: &InstParts, b: &InstParts) -> bool
    ensures { IsTrue result ↔ (a.now ≡ b.now) }
{
    *a == *b
}

/// Whether two instructions are equal, including their operands.
pub fn is_same(a: &Inst, b: &Inst) -> bool
    ensures { IsTrue result ↔ (a.now ≡ b.now) }
{
    let left = parts_of(a);
    let right = parts_of(b);
    are_same_parts(&left, &right)
}
