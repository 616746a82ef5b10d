// The instructions that references need, by address.
ghost use Rattle.std.specs.Prelude.{◌≡◌, ℕ, ℤ, IfSome, Some, Contains, IsTrue, ◌↔◌};
ghost use Rattle.rv_code.specs.declared.inst.Inst.TheVariants.{Auipc};
ghost use Rattle.elf_code.specs.FileCode.{AreStarts};
ghost use Rattle.elf_code.specs.Roles.{IsFullAt};
ghost use Rattle.elf_code.specs.ReferenceFaults.{HasAuipc};
ghost use Rattle.rv_reloc.specs.Instructions.{auipc_of, lui_of, jalr_of};
ghost use Rattle.code_starts.specs.Parts.{AreCodeParts};

use code_starts::code::full_at;
use code_starts::parts::Part;
use code_starts::start_index::Starts;
use elf_image::Elf;
use rv_code::Inst;

/// The register and the immediate of an AUIPC or a LUI.
#[derive(Clone, Copy)]
pub struct Upper {
    pub rd: u8,
    pub imm: i64,
}

/// The base register and the immediate of a JALR.
#[derive(Clone, Copy)]
pub struct Jump {
    pub base: u8,
    pub imm: i64,
}

fn auipc_of(inst: &Inst) -> Option<Upper>
    ensures { result ≡ auipc_of inst.now }
{
    match *inst {
        Inst::Auipc { rd, imm } => Some(Upper { rd, imm }),
        _ => None,
    }
}

/// The register and the immediate of an instruction, if it is a LUI.
pub fn lui_of(inst: &Inst) -> Option<Upper>
    ensures { result ≡ lui_of inst.now }
{
    match *inst {
        Inst::Lui { rd, imm } => Some(Upper { rd, imm }),
        _ => None,
    }
}

/// The base register and the immediate of an instruction, if it is a JALR.
pub fn jalr_of(inst: &Inst) -> Option<Jump>
    ensures { result ≡ jalr_of inst.now }
{
    match *inst {
        Inst::Jalr { rs1, imm, .. } => Some(Jump { base: rs1, imm }),
        _ => None,
    }
}

/// The AUIPC at an address, if an instruction starts there and is one.
pub fn auipc_at(elf: &Elf, starts: &Starts, parts: &[Part], address: u64) -> Option<Upper>
    requires starts { AreStarts elf.now starts.now }
    requires parts { AreCodeParts elf.now parts.now }
    ensures there { IfSome result (λ u. IsFullAt elf.now address (Auipc u.rd u.imm)) }
    ensures only { (rd : ℕ) (imm : ℤ) → IsFullAt elf.now address (Auipc rd imm) →
        result ≡ Some (record { rd = rd; imm = imm }) }
{
    let inst = full_at(elf, starts, parts, address)?;
    auipc_of(&inst)
}
