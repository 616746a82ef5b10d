// Types of relocations, by use. Each function takes the type `kind` of a relocation. psABI, "Relocations", the table of
// types.
ghost use Rattle.std.specs.Prelude.{◌≡◌};
ghost use Rattle.elf_code.specs.Relocations.{is_ignored, is_address, is_call_pair, is_pcrel_hi, is_pcrel_lo};
ghost use Rattle.elf_code.specs.Relocations.{is_absolute, is_pc_difference, is_supported};

use elf_image::relocation::*;

/// Whether the relocation is ignored: a hint for the linker, a branch or jump (whose target is read from the
/// instruction), or an offset of thread-local data.
pub fn is_ignored(kind: u32) -> bool
    ensures { result ≡ is_ignored kind }
{
    kind == R_RISCV_NONE
        || kind == R_RISCV_BRANCH
        || kind == R_RISCV_JAL
        || kind == R_RISCV_ALIGN
        || kind == R_RISCV_RVC_BRANCH
        || kind == R_RISCV_RVC_JUMP
        || kind == R_RISCV_RELAX
        || (R_RISCV_TPREL_HI20 <= kind && kind <= R_RISCV_TPREL_ADD)
}

/// Whether the field contains an address.
pub fn is_address(kind: u32) -> bool
    ensures { result ≡ is_address kind }
{
    kind == R_RISCV_32 || kind == R_RISCV_64
}

/// Whether the relocation is for a call, an AUIPC followed by a JALR.
pub fn is_call_pair(kind: u32) -> bool
    ensures { result ≡ is_call_pair kind }
{
    kind == R_RISCV_CALL || kind == R_RISCV_CALL_PLT
}

/// Whether the relocation is for the upper part of a distance from an AUIPC.
pub fn is_pcrel_hi(kind: u32) -> bool
    ensures { result ≡ is_pcrel_hi kind }
{
    kind == R_RISCV_GOT_HI20
        || kind == R_RISCV_TLS_GOT_HI20
        || kind == R_RISCV_TLS_GD_HI20
        || kind == R_RISCV_PCREL_HI20
}

/// Whether the relocation is for the lower part of a distance from an AUIPC.
pub fn is_pcrel_lo(kind: u32) -> bool
    ensures { result ≡ is_pcrel_lo kind }
{
    kind == R_RISCV_PCREL_LO12_I || kind == R_RISCV_PCREL_LO12_S
}

/// Whether the relocation is for a part of an absolute address.
pub fn is_absolute(kind: u32) -> bool
    ensures { result ≡ is_absolute kind }
{
    kind == R_RISCV_HI20 || kind == R_RISCV_LO12_I || kind == R_RISCV_LO12_S
}

/// Whether the field contains the distance from the field to a label.
pub fn is_pc_difference(kind: u32) -> bool
    ensures { result ≡ is_pc_difference kind }
{
    kind == R_RISCV_32_PCREL || kind == R_RISCV_PLT32
}

/// Whether the type is supported.
pub fn is_supported(kind: u32) -> bool
    ensures { result ≡ is_supported kind }
{
    is_ignored(kind)
        || is_address(kind)
        || is_call_pair(kind)
        || is_pcrel_hi(kind)
        || is_pcrel_lo(kind)
        || is_absolute(kind)
        || is_pc_difference(kind)
        || kind == R_RISCV_IRELATIVE
        || (R_RISCV_ADD8 <= kind && kind <= R_RISCV_SUB64)
        || (R_RISCV_SUB6 <= kind && kind <= R_RISCV_SET32)
        || kind == R_RISCV_SET_ULEB128
        || kind == R_RISCV_SUB_ULEB128
}
