// Tests all types of relocations, by number. psABI, "Relocations", the table of types.
use crate::analysis::check_rows;
use std::test::Fail;

const TYPES: &str = "\
# Types that aren't supported: those of a dynamic linker, those that linkers alone make, reserved numbers, and
# descriptors of thread-local storage. Each is for the first instruction, a LUI, with the address 0.
code .text 10078 lui a0,0; addi a0,a0,7; exit
- reloc 10078 type=3 => refused RelocType 10078
- reloc 10078 type=4 => refused RelocType 10078
- reloc 10078 type=5 => refused RelocType 10078
- reloc 10078 type=6 => refused RelocType 10078
- reloc 10078 type=7 => refused RelocType 10078
- reloc 10078 type=8 => refused RelocType 10078
- reloc 10078 type=9 => refused RelocType 10078
- reloc 10078 type=10 => refused RelocType 10078
- reloc 10078 type=11 => refused RelocType 10078
- reloc 10078 type=12 => refused RelocType 10078
- reloc 10078 type=13 => refused RelocType 10078
- reloc 10078 type=14 => refused RelocType 10078
- reloc 10078 type=15 => refused RelocType 10078
- reloc 10078 type=41 => refused RelocType 10078
- reloc 10078 type=42 => refused RelocType 10078
- reloc 10078 type=46 => refused RelocType 10078
- reloc 10078 type=47 => refused RelocType 10078
- reloc 10078 type=48 => refused RelocType 10078
- reloc 10078 type=49 => refused RelocType 10078
- reloc 10078 type=50 => refused RelocType 10078
- reloc 10078 type=62 => refused RelocType 10078
- reloc 10078 type=63 => refused RelocType 10078
- reloc 10078 type=64 => refused RelocType 10078
- reloc 10078 type=65 => refused RelocType 10078
- reloc 10078 type=66 => refused RelocType 10078
- reloc 10078 type=191 => refused RelocType 10078
- reloc 10078 type=192 => refused RelocType 10078
- reloc 10078 type=255 => refused RelocType 10078

# Those that say nothing of code, and those for which the address 0 is no code: NONE, 32, 64, BRANCH, JAL, HI20, LO12,
# TPREL, ADD, SUB, ALIGN, RVC_BRANCH, RVC_JUMP, RELAX, SUB6, SET, and the two in LEB128.
code .text 10078 lui a0,0; addi a0,a0,7; exit
- reloc 10078 type=0 => roles | cells
- reloc 10078 type=1 => roles | cells
- reloc 10078 type=2 => roles | cells
- reloc 10078 type=16 => roles | cells
- reloc 10078 type=17 => roles | cells
- reloc 10078 type=26 => roles | cells
- reloc 10078 type=27 => roles | cells
- reloc 10078 type=28 => roles | cells
- reloc 10078 type=29 => roles | cells
- reloc 10078 type=30 => roles | cells
- reloc 10078 type=31 => roles | cells
- reloc 10078 type=32 => roles | cells
- reloc 10078 type=33 => roles | cells
- reloc 10078 type=34 => roles | cells
- reloc 10078 type=35 => roles | cells
- reloc 10078 type=36 => roles | cells
- reloc 10078 type=37 => roles | cells
- reloc 10078 type=38 => roles | cells
- reloc 10078 type=39 => roles | cells
- reloc 10078 type=40 => roles | cells
- reloc 10078 type=43 => roles | cells
- reloc 10078 type=44 => roles | cells
- reloc 10078 type=45 => roles | cells
- reloc 10078 type=51 => roles | cells
- reloc 10078 type=52 => roles | cells
- reloc 10078 type=53 => roles | cells
- reloc 10078 type=54 => roles | cells
- reloc 10078 type=55 => roles | cells
- reloc 10078 type=56 => roles | cells
- reloc 10078 type=60 => roles | cells
- reloc 10078 type=61 => roles | cells

# CALL, CALL_PLT, the upper and lower parts of distances, 32_PCREL and PLT32 don't fit a LUI; IRELATIVE is for an
# indirect function.
code .text 10078 lui a0,0; addi a0,a0,7; exit
- reloc 10078 type=18 => refused RelocMismatch 10078
- reloc 10078 type=19 => refused RelocMismatch 10078
- reloc 10078 type=20 => refused RelocMismatch 10078
- reloc 10078 type=21 => refused RelocMismatch 10078
- reloc 10078 type=22 => refused RelocMismatch 10078
- reloc 10078 type=23 => refused RelocMismatch 10078
- reloc 10078 type=24 => refused RelocMismatch 10078
- reloc 10078 type=25 => refused RelocMismatch 10078
- reloc 10078 type=57 => refused RelocMismatch 10078
- reloc 10078 type=58 => refused IfuncOrPlt 10078
- reloc 10078 type=59 => refused RelocMismatch 10078

# The table has the null symbol and one more. The relocation stands at 88 in the file, and its symbol's index, the high
# 32 bits of `r_info`, at 94. gABI, \"Relocation\".
code .text 10078 lui a0,0; addi a0,a0,7; exit
label p 10078
reloc 10078 NONE @p
- => functions 10078 10088
- patch 94 02 => refused RelocMismatch 10078

# An indirect function: the type of its symbol is STT_GNU_IFUNC.
code .text 10078 lui a0,0; addi a0,a0,7; exit
- label f 10080 0 type=10 => refused IfuncOrPlt 10080";

#[test]
fn types_of_relocations(rt: HostRuntime) -> Result<(), Fail> {
    check_rows(&rt, rt.alloc(), TYPES)
}
