// Tests files as compilers and linkers lay them out.
use crate::analysis::check_rows;
use std::test::Fail;

const FOUND: &str = "\
# An entry of the global offset table with the address of the second function.
segment rw 1000 20000
writable .got 20000 8400010000000000
headers behind
function f 10078 c
function g 10084 8
label p 10078
- code .text 10078 auipc a5,16; ld a5,-120(a5); jalr zero,0(a5); exit
  reloc 10078 GOT_HI20 @g | reloc 1007c PCREL_LO12_I @p
  => starts 10078 1007c 10080 10084 10088 | roles 10078 Hi 20000 1007c Lo 20000 10078 | cells 20000 8 10084
     | functions 10078 10084 10084 1008c

# An entry that holds another address, that isn't loaded, or that is to hold two addresses.
segment rw 1000 20000
headers behind
function f 10078 c
function g 10084 8
label p 10078
- code .text 10078 auipc a5,16; ld a5,-120(a5); jalr zero,0(a5); exit | writable .got 20000 8800010000000000
  reloc 10078 GOT_HI20 @g | reloc 10078 GOT_HI20 @g | reloc 1007c PCREL_LO12_I @p => refused RelocMismatch 10078
- code .text 10078 auipc a5,16; ld a5,-120(a5); jalr zero,0(a5); exit | writable .got 20000 8000010000000000
  reloc 10078 GOT_HI20 @g | reloc 10078 GOT_HI20 @g | reloc 1007c PCREL_LO12_I @p => refused RelocMismatch 10078
- code .text 10078 auipc a5,16; ld a5,-112(a5); jalr zero,0(a5); exit | writable .got 20000 8400010000000000
  reloc 10078 GOT_HI20 @g | reloc 10078 GOT_HI20 @g | reloc 1007c PCREL_LO12_I @p => refused RelocMismatch 10078
- code .text 10078 auipc a5,16; ld a5,-120(a5); jalr zero,0(a5); exit | writable .got 20000 8400010000000000
  reloc 10078 GOT_HI20 @g | reloc 10078 GOT_HI20 @g 4 | reloc 1007c PCREL_LO12_I @p => refused RelocMismatch 10078
- code .text 10078 auipc a5,16; ld a5,-120(a5); jalr zero,0(a5); exit | writable .got 20000 8400010000000000
  reloc 10078 GOT_HI20 @g -4 | reloc 10078 GOT_HI20 @g | reloc 1007c PCREL_LO12_I @p => refused RelocMismatch 10078

# A switch by a table of distances from the table.
code .text 10078 auipc a5,0; addi a5,a5,32; lw a4,4(a5); add a4,a4,a5; jalr zero,0(a4); addi a0,zero,5; exit
loaded .rodata 10098 f4fffffff8ffffff
label p 10078
reloc 10078 PCREL_HI20 10098
reloc 1007c PCREL_LO12_I @p
- reloc 10098 ADD32 1008c | reloc 10098 SUB32 10098 | reloc 1009c ADD32 10090 | reloc 1009c SUB32 10098
  => roles 10078 Hi 10098 1007c Lo 10098 10078 | cells 10098 4 1008c 10098 1009c 4 10090 10098

# A switch by a table of addresses.
code .text 10078 auipc a5,0; addi a5,a5,32; ld a4,8(a5); jalr zero,0(a4); addi a0,zero,5; addi a0,zero,6; exit
loaded .rodata 10098 88000100000000008c00010000000000
label p 10078
reloc 10078 PCREL_HI20 10098
reloc 1007c PCREL_LO12_I @p
- reloc 10098 64 10088 | reloc 100a0 64 1008c
  => roles 10078 Hi 10098 1007c Lo 10098 10078 | cells 10098 8 10088 100a0 8 1008c

# The parts of an absolute code address; those of the address of data have no role.
code .text 10078 lui a5,16; addi a5,a5,132; jalr zero,0(a5); exit
- label g 10084 | reloc 10078 HI20 @g | reloc 1007c LO12_I @g => roles 10078 AbsHi 10084 1007c AbsLo 10084
- label g 20000 | reloc 10078 HI20 @g | reloc 1007c LO12_I @g => roles

# A call of another function.
function f 10078 8
function g 10080 8
- code .text 10078 auipc ra,0; jalr ra,8(ra); exit | reloc 10078 CALL_PLT @g
  => roles 10078 CallHi 10080 1007c CallLo 10080 10078 | functions 10078 10080 10080 10088

# The linker writes a call of an undefined weak symbol as one of address 0; its AUIPC names itself.
function f 10078 8
function g 10080 8
- code .text 10078 auipc ra,0; jalr ra,0(zero); exit | reloc 10078 CALL_PLT
  => roles 10078 CallHi 10078 | functions 10078 10080 10080 10088

# A variable of a thread by its distance from tp, as executables address it. It has no address, so it gives no role.
code .text 10078 lui a5,0; add a5,a5,tp; lw a0,16(a5); exit
- reloc 10078 TPREL_HI20 10 | reloc 1007c TPREL_ADD 10 | reloc 10080 TPREL_LO12_I 10 => roles | functions 10078 1008c";

#[test]
fn linked_code(rt: HostRuntime) -> Result<(), Fail> {
    check_rows(&rt, rt.alloc(), FOUND)
}

const FIELDS: &str = "\
# The address that a field holds, whatever its relocation says, and the wider of two fields; a distance from the highest
# address; and one from the field itself.
code .text 10078 lui a0,0; addi a0,a0,7; exit
- loaded .rodata 10088 7c00010000000000 | reloc 10088 32 1007c | reloc 10088 64 10078 => cells 10088 8 1007c
- loaded .rodata 10088 7c00028000000000 | reloc 10088 ADD32 1007c | reloc 10088 SUB32 7fff0000
  => cells 10088 4 1007c 7fff0000
- loaded .rodata 10088 f4ffffff00000000 | reloc 10088 32_PCREL 1007c | reloc 10088 NONE 0 => cells 10088 4 1007c 10088

# Distances from labels that are no addresses; a label alone; eight bytes in a section of four; and a distance that is
# set, which no cell can hold.
code .text 10078 lui a0,0; addi a0,a0,7; exit
- loaded .rodata 10088 7b000280 | reloc 10088 ADD32 1007c | reloc 10088 SUB32 7fff0001 => refused RelocMismatch 10088
- loaded .rodata 10088 80000100 | reloc 10088 ADD32 1007c | reloc 10088 SUB32 -4 => refused RelocMismatch 10088
- loaded .rodata 10088 7c000100 | reloc 10088 ADD32 1007c | reloc 10088 NONE 0 => refused RelocMismatch 10088
- loaded .rodata 10088 7c000100 | reloc 10088 64 1007c | reloc 10088 NONE 0 => refused RelocMismatch 10088
- loaded .rodata 10088 04000000 | reloc 10088 SET32 1007c | reloc 10088 SUB32 10078 => refused NarrowDiff 10088

# A distance in LEB128 between two labels of a function that stays whole. DWARF 5, section 7.6.
code .text 10078 lui a0,0; addi a0,a0,7; exit
loaded .rodata 10088 8800
reloc 10088 SET_ULEB128 10080
reloc 10088 SUB_ULEB128 10078
- => refused NarrowDiff 10088
- whole 1007c 1007d => cells | functions 10078 10088 whole";

#[test]
fn fields_of_data(rt: HostRuntime) -> Result<(), Fail> {
    check_rows(&rt, rt.alloc(), FIELDS)
}
