// Relocations that the linker kept in the file.

/// The type of a section with relocations with addends. gABI, "Section Types".
pub const SHT_RELA: u32 = 4;

/// The size of a relocation with an addend in bytes. gABI, "Relocation".
pub const RELA_SIZE: usize = 24;

// Types of relocations. psABI, "Relocations", the table of types.

pub const R_RISCV_NONE: u32 = 0;

pub const R_RISCV_32: u32 = 1;

pub const R_RISCV_64: u32 = 2;

pub const R_RISCV_BRANCH: u32 = 16;

pub const R_RISCV_JAL: u32 = 17;

pub const R_RISCV_CALL: u32 = 18;

pub const R_RISCV_CALL_PLT: u32 = 19;

pub const R_RISCV_GOT_HI20: u32 = 20;

pub const R_RISCV_TLS_GOT_HI20: u32 = 21;

pub const R_RISCV_TLS_GD_HI20: u32 = 22;

pub const R_RISCV_PCREL_HI20: u32 = 23;

pub const R_RISCV_PCREL_LO12_I: u32 = 24;

pub const R_RISCV_PCREL_LO12_S: u32 = 25;

pub const R_RISCV_HI20: u32 = 26;

pub const R_RISCV_LO12_I: u32 = 27;

pub const R_RISCV_LO12_S: u32 = 28;

pub const R_RISCV_TPREL_HI20: u32 = 29;

pub const R_RISCV_TPREL_LO12_I: u32 = 30;

pub const R_RISCV_TPREL_LO12_S: u32 = 31;

pub const R_RISCV_TPREL_ADD: u32 = 32;

pub const R_RISCV_ADD8: u32 = 33;

pub const R_RISCV_ADD16: u32 = 34;

pub const R_RISCV_ADD32: u32 = 35;

pub const R_RISCV_ADD64: u32 = 36;

pub const R_RISCV_SUB8: u32 = 37;

pub const R_RISCV_SUB16: u32 = 38;

pub const R_RISCV_SUB32: u32 = 39;

pub const R_RISCV_SUB64: u32 = 40;

pub const R_RISCV_ALIGN: u32 = 43;

pub const R_RISCV_RVC_BRANCH: u32 = 44;

pub const R_RISCV_RVC_JUMP: u32 = 45;

pub const R_RISCV_RELAX: u32 = 51;

pub const R_RISCV_SUB6: u32 = 52;

pub const R_RISCV_SET6: u32 = 53;

pub const R_RISCV_SET8: u32 = 54;

pub const R_RISCV_SET16: u32 = 55;

pub const R_RISCV_SET32: u32 = 56;

pub const R_RISCV_32_PCREL: u32 = 57;

pub const R_RISCV_IRELATIVE: u32 = 58;

pub const R_RISCV_PLT32: u32 = 59;

pub const R_RISCV_SET_ULEB128: u32 = 60;

pub const R_RISCV_SUB_ULEB128: u32 = 61;
