//! When a rewritten file keeps the runs of its input: definitions, and laws about them.
#![tactic(auto)]

ghost use Rattle.std.specs.Prelude.{◌≡◌};
ghost use Rattle.move_law.specs.FaithfulRewrite.{with_immediate};
ghost use Rattle.move_law.specs.Laws.{IdentityLaw, SimulationLaw};

use rv_code::Inst;

/// A faithful rewrite keeps the runs of its input: related states stay related, step by step. So each run that ends on
/// the symbol machine is also a run of the output, and so are the first steps of any other run.
pub fn simulation_law()
    ensures { SimulationLaw }
{}

/// A file is a faithful rewrite of itself. So each run that ends on the symbol machine is also a run of the byte
/// machine, with the same number of steps.
pub fn identity_law()
    ensures { IdentityLaw }
{}

/// The instruction with another immediate, if it can hold a part of an address: LUI, AUIPC, ADDI, JALR, a load or a
/// store. Any other instruction is returned unchanged.
pub fn with_immediate(inst: &Inst, imm: i64) -> Inst
    ensures { result ≡ with_immediate inst.now imm }
{
    match *inst {
        Inst::Lui { rd, .. } => Inst::Lui { rd, imm },
        Inst::Auipc { rd, .. } => Inst::Auipc { rd, imm },
        Inst::Addi { rd, rs1, .. } => Inst::Addi { rd, rs1, imm },
        Inst::Jalr { rd, rs1, .. } => Inst::Jalr { rd, rs1, imm },
        Inst::Lb { rd, rs1, .. } => Inst::Lb { rd, rs1, imm },
        Inst::Lh { rd, rs1, .. } => Inst::Lh { rd, rs1, imm },
        Inst::Lw { rd, rs1, .. } => Inst::Lw { rd, rs1, imm },
        Inst::Ld { rd, rs1, .. } => Inst::Ld { rd, rs1, imm },
        Inst::Lbu { rd, rs1, .. } => Inst::Lbu { rd, rs1, imm },
        Inst::Lhu { rd, rs1, .. } => Inst::Lhu { rd, rs1, imm },
        Inst::Lwu { rd, rs1, .. } => Inst::Lwu { rd, rs1, imm },
        Inst::Sb { rs1, rs2, .. } => Inst::Sb { rs1, rs2, imm },
        Inst::Sh { rs1, rs2, .. } => Inst::Sh { rs1, rs2, imm },
        Inst::Sw { rs1, rs2, .. } => Inst::Sw { rs1, rs2, imm },
        Inst::Sd { rs1, rs2, .. } => Inst::Sd { rs1, rs2, imm },
        _ => *inst,
    }
}
